// The names of the lines `X` and `L`, each with spaces behind it up to 14 characters, and what they stand for.
ghost use Rattle.std.specs.Prelude.{◌≡◌, map};
ghost use Rattle.lab_names.specs.Names.{names, entry};

use crate::Part;
use blocks::Store;
use lab_sets::{Cell, Field, Thing};
use tables::Table;

// Arrays of one length and no slices: `names` has each name as `padded` gives it, and `entry` keeps it so.
pub fn table() -> [([u8; 14], Part); 63]
    ensures { result ≡ map entry names }
{
    NAMES
}

const NAMES: [([u8; 14], Part); 63] = [
    // initialised and the fields of Initialise
    (*b"X initialised ", Part::Cell(Cell::Initialised)),
    (*b"X mode        ", Part::Cell(Cell::Field(Field::Mode))),
    (*b"X flags       ", Part::Cell(Cell::Field(Field::Flags))),
    (*b"X seconds     ", Part::Cell(Cell::Field(Field::Seconds))),
    (
        *b"X milliseconds",
        Part::Cell(Cell::Field(Field::Milliseconds)),
    ),
    (
        *b"X limit0      ",
        Part::Cell(Cell::Field(Field::Limit(Store::Priority))),
    ),
    (
        *b"X limit1      ",
        Part::Cell(Cell::Field(Field::Limit(Store::Ordinary))),
    ),
    (
        *b"X remaining0  ",
        Part::Cell(Cell::Field(Field::Remaining(Store::Priority))),
    ),
    (
        *b"X remaining1  ",
        Part::Cell(Cell::Field(Field::Remaining(Store::Ordinary))),
    ),
    (*b"X poll        ", Part::Cell(Cell::Field(Field::Poll))),
    // whether a parameter was written
    (*b"X written1    ", Part::Cell(Cell::Written(1))),
    (*b"X written2    ", Part::Cell(Cell::Written(2))),
    (*b"X written3    ", Part::Cell(Cell::Written(3))),
    (*b"X written4    ", Part::Cell(Cell::Written(4))),
    (*b"X written5    ", Part::Cell(Cell::Written(5))),
    (*b"X written6    ", Part::Cell(Cell::Written(6))),
    (*b"X written7    ", Part::Cell(Cell::Written(7))),
    (*b"X written8    ", Part::Cell(Cell::Written(8))),
    (*b"X written9    ", Part::Cell(Cell::Written(9))),
    (*b"X written10   ", Part::Cell(Cell::Written(10))),
    (*b"X written11   ", Part::Cell(Cell::Written(11))),
    (*b"X written12   ", Part::Cell(Cell::Written(12))),
    // the places of the kept list of missing ids
    (*b"X missing0    ", Part::Cell(Cell::Missing(0))),
    (*b"X missing1    ", Part::Cell(Cell::Missing(1))),
    (*b"X missing2    ", Part::Cell(Cell::Missing(2))),
    (*b"X missing3    ", Part::Cell(Cell::Missing(3))),
    (*b"X missing4    ", Part::Cell(Cell::Missing(4))),
    (*b"X missing5    ", Part::Cell(Cell::Missing(5))),
    (*b"X missing6    ", Part::Cell(Cell::Missing(6))),
    (*b"X missing7    ", Part::Cell(Cell::Missing(7))),
    // the table words, the stores and the pipe
    (*b"X error       ", Part::Cell(Cell::Error)),
    (*b"X place5      ", Part::Cell(Cell::Place(Table::Five))),
    (*b"X place6      ", Part::Cell(Cell::Place(Table::Six))),
    (*b"X place7      ", Part::Cell(Cell::Place(Table::Seven))),
    (
        *b"X oldest0     ",
        Part::Cell(Cell::Oldest(Store::Priority)),
    ),
    (
        *b"X oldest1     ",
        Part::Cell(Cell::Oldest(Store::Ordinary)),
    ),
    (
        *b"X waiting0    ",
        Part::Cell(Cell::Waiting(Store::Priority)),
    ),
    (
        *b"X waiting1    ",
        Part::Cell(Cell::Waiting(Store::Ordinary)),
    ),
    (*b"X gathered    ", Part::Cell(Cell::Gathered)),
    (*b"X timeouts    ", Part::Cell(Cell::Timeouts)),
    (*b"X out         ", Part::Cell(Cell::Out)),
    (*b"X outtimeouts ", Part::Cell(Cell::Outtimeouts)),
    // the parameters
    (*b"X param1      ", Part::Value(1)),
    (*b"X param2      ", Part::Value(2)),
    (*b"X param3      ", Part::Value(3)),
    (*b"X param4      ", Part::Value(4)),
    (*b"X param5      ", Part::Value(5)),
    (*b"X param6      ", Part::Value(6)),
    (*b"X param7      ", Part::Value(7)),
    (*b"X param8      ", Part::Value(8)),
    (*b"X param9      ", Part::Value(9)),
    (*b"X param10     ", Part::Value(10)),
    (*b"X param11     ", Part::Value(11)),
    (*b"X param12     ", Part::Value(12)),
    // what is no number from 0 on, and the lent things
    (*b"X exchange    ", Part::Exchange),
    (*b"X address     ", Part::Address),
    (*b"X transfer    ", Part::Transfer),
    (*b"L room        ", Part::Thing(Thing::Room)),
    (
        *b"L p           ",
        Part::Thing(Thing::Store(Store::Priority)),
    ),
    (
        *b"L o           ",
        Part::Thing(Thing::Store(Store::Ordinary)),
    ),
    (*b"L 5           ", Part::Thing(Thing::Table(Table::Five))),
    (*b"L 6           ", Part::Thing(Thing::Table(Table::Six))),
    (*b"L 7           ", Part::Thing(Thing::Table(Table::Seven))),
];
