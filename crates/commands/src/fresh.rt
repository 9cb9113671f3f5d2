// The pod as from power; Initialise begins with it too.
ghost use Rattle.std.specs.Prelude.{◌≡◌};
ghost use Rattle.rules.specs.State.{fresh_fields, fresh_pod};

use packets::Fields;
use pipe::Pipe;
use rules::{Exchange, Pod};

#[tactic(auto, unfolding(rules::specs::State::fresh_fields))]
fn fresh_fields() -> Fields
    ensures { result ≡ fresh_fields }
{
    Fields {
        mode: 0,
        flags: 0,
        seconds: 0,
        milliseconds: 0,
        prioritylimit: 0,
        priorityremaining: 0,
        memorylimit: 0,
        memoryremaining: 0,
        poll: 1000,
    }
}

#[tactic(auto, unfolding(rules::specs::State::fresh_pod))]
pub fn fresh_pod() -> Pod
    ensures { result ≡ fresh_pod }
{
    Pod {
        initialised: false,
        fields: fresh_fields(),
        params: params::start(),
        exchange: Exchange::Closed,
        words: tables::start_words(),
        priority: blocks::empty(),
        ordinary: blocks::empty(),
        pipe: Pipe::fresh(),
    }
}
