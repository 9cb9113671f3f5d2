// A store of 256-byte blocks as a ring over lent bytes: once, for any capacity.
#![tactic(auto)]

ghost use Rattle.std.specs.Prelude.{◌≡◌, true, ◌+◌, ◌*◌, ◌<◌, ◌≤◌, length};
ghost use Rattle.blocks.specs.Stores.{capacity_of, store_sized, store_of, sound_ring, empty_ring, place_behind, block_at, oldest_of, put_ring, put_store, dropped_ring};

use numbers::copy;

// Which of the two stores.
#[derive(Clone, Copy, Debug, PartialEq, Eq)]
pub enum Store {
    Priority,
    Ordinary,
}

// How many bytes a block has.
pub const BLOCK: usize = 256;

// The place of the oldest block, and how many blocks wait from there on. The capacity goes beside it and is no field: the rules
// (`sound_ring`, `put_store`, `dropped_ring`) take it as a number, and the state of the pod holds the two rings alone.
#[derive(Clone, Copy)]
pub struct Ring {
    pub oldest: usize,
    pub waiting: usize,
}

// How many blocks the store holds: a line for each store, as `capacity_of` has it.
pub fn capacity(which: Store) -> usize
    ensures { result ≡ capacity_of which }
{
    match which {
        Store::Priority => 16,
        Store::Ordinary => 128,
    }
}

// Has what is lent as a store the store's size?
#[tactic(auto, unfolding(crate::specs::Stores::store_sized))]
pub fn sized(which: Store, store: &[u8]) -> bool
    ensures { result ≡ store_sized which store.now }
{
    store.len() == capacity(which) * BLOCK
}

// Nothing waits. No `Default`: a derive has no line for the must-fail edit "a block waits in an empty store".
pub fn empty() -> Ring
    ensures { result ≡ empty_ring }
{
    Ring {
        oldest: 0,
        waiting: 0,
    }
}

// Is the ring within the bounds of its store?
#[tactic(auto, unfolding(crate::specs::Stores::sound_ring))]
pub fn sound(capacity: usize, ring: Ring) -> bool
    ensures { result ≡ sound_ring capacity ring }
{
    (ring.oldest < capacity) & (ring.waiting <= capacity)
}

// The place that is k places behind another. No sum passes the capacity, so none can wrap.
#[tactic(auto, unfolding(crate::specs::Stores::place_behind))]
fn place(capacity: usize, from: usize, k: usize) -> usize
    requires { (from < capacity) × (k ≤ capacity) }
    ensures { result ≡ place_behind capacity from k }
{
    let ahead = capacity - from;
    if k < ahead { from + k } else { k - ahead }
}

// The block goes behind the others; no other byte changes.
#[tactic(auto, using(crate::proofs::Places::bounds, crate::proofs::Places::behind_in), unfolding(crate::specs::Stores::put_ring, crate::specs::Stores::put_store))]
pub fn put(capacity: usize, ring: Ring, store: &mut [u8], block: &[u8]) -> Ring
    requires ring_value { (sound_ring capacity ring ≡ true) × (ring.waiting < capacity) }
    requires store_len { (length store.old ≡ capacity * 256) × (length block.now ≡ 256) }
    ensures value { result ≡ put_ring ring }
    ensures store_after { store.new ≡ put_store capacity ring store.old block.now }
{
    let behind = place(capacity, ring.oldest, ring.waiting);
    copy(store, behind * BLOCK, block);
    Ring {
        waiting: ring.waiting + 1,
        ..ring
    }
}

// The block at a place, as a part of its store.
#[tactic(auto, unfolding(crate::specs::Stores::block_at))]
fn block_at(store: &[u8], at: usize) -> &[u8]
    requires { at * 256 + 256 ≤ length store.now }
    ensures { result.now ≡ block_at store.now at }
{
    let from = at * BLOCK;
    &store[from..from + BLOCK]
}

// The oldest block, as a part of whichever of the two stores is asked for: both are lent, a form that the rules name.
#[tactic(auto, using(crate::proofs::Places::bounds, crate::proofs::Laws::oldest_at))]
pub fn oldest<'a>(which: Store, ring: Ring, priority: &'a [u8], ordinary: &'a [u8]) -> &'a [u8]
    requires priority_len { (length priority.now ≡ capacity_of Store.Priority * 256) × (length ordinary.now ≡ capacity_of Store.Ordinary * 256) }
    requires ring_value { (sound_ring (capacity_of which) ring ≡ true) × (0 < ring.waiting) }
    ensures { result.now ≡ oldest_of (capacity_of which) ring (store_of which priority.now ordinary.now) }
{
    match which {
        Store::Priority => block_at(priority, ring.oldest),
        Store::Ordinary => block_at(ordinary, ring.oldest),
    }
}

// The oldest block goes, and the next one is the oldest.
#[tactic(auto, unfolding(crate::specs::Stores::dropped_ring, crate::specs::Stores::sound_ring))]
pub fn dropped(capacity: usize, ring: Ring) -> Ring
    requires { (sound_ring capacity ring ≡ true) × (0 < ring.waiting) }
    ensures { result ≡ dropped_ring capacity ring }
{
    Ring {
        oldest: place(capacity, ring.oldest, 1),
        waiting: ring.waiting - 1,
    }
}
