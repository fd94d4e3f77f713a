// The types that all crates share: answers, the section starts, and the numbers that stand on the wire.
#![tactic(auto)]

ghost use Rattle.std.specs.Prelude.{◌≡◌};

use std::fmt;

// The longest manifest, and the highest limit of a string.
pub const MAX_SNAPSHOT_BYTES: usize = 67108864;

// A question of document 01's list, by its number: a type, so that no other number passes for one, and a number, as C hands it on.
#[derive(Clone, Copy, PartialEq, Eq)]
pub struct Question(pub u8);

impl fmt::Display for Question {
    fn fmt<W: fmt::Write>(&self, f: &mut fmt::Formatter<W>) -> fmt::Result {
        let number = self.0;
        write!(f, "{number}")
    }
}

impl Question {
    // This question, answered no at a place.
    pub fn at<P: Drop>(self, at: P) -> Refusal<P>
        ensures { result ≡ record { question = self; at = at } }
    {
        Refusal { question: self, at }
    }
}

// The question that was answered no, and where: at a position of the bytes, or at an offset, which counts from a base.
#[derive(Clone, Copy, PartialEq, Eq)]
pub struct Refusal<P> {
    pub question: Question,
    pub at: P,
}

impl<P: fmt::Display> fmt::Display for Refusal<P> {
    fn fmt<W: fmt::Write>(&self, f: &mut fmt::Formatter<W>) -> fmt::Result {
        let question = self.question;
        let at = &self.at;
        write!(f, "{question} {at}")
    }
}

// Where reading goes on.
pub type Step = Result<usize, Refusal<usize>>;

// A number that was read, and where reading goes on. A tag is read as a byte, so its answer is written out.
pub type Field = Result<(u64, usize), Refusal<usize>>;

// The twelve section starts, counted from the manifest's first byte.
#[derive(Clone, Copy)]
pub struct Starts {
    pub at: [u32; 12],
}

// What a call on a manifest answers: the starts after acceptance.
pub type Decoded = Result<Starts, Refusal<u64>>;

// What a manifest costs.
#[derive(Clone, Copy, PartialEq, Eq)]
pub struct Units {
    pub words: u64,
    pub units: u64,
}

// Where two manifests first differ: section, part, entry place and inner place.
#[derive(Clone, Copy, PartialEq, Eq)]
pub struct Difference {
    pub section: u8,
    pub part: u8,
    pub entry: usize,
    pub inner: usize,
}

impl fmt::Display for Difference {
    fn fmt<W: fmt::Write>(&self, f: &mut fmt::Formatter<W>) -> fmt::Result {
        let Difference {
            section,
            part,
            entry,
            inner,
        } = *self;
        write!(f, "{section} {part} {entry} {inner}")
    }
}

// What comparing comes to: nothing differs, or this does first.
pub type Verdict = Result<(), Difference>;

// Which of two manifests is refused, the snapshot's or the target's.
#[derive(Clone, Copy, PartialEq, Eq)]
pub enum SideRefusal {
    Snapshot(Refusal<u64>),
    Target(Refusal<u64>),
}

// The parts of a verdict, numbers as in document 01 and C. Sections and tags below are associated constants, as document 01 asks.
#[derive(Clone, Copy)]
pub struct Part(pub u8);

impl Part {
    // A whole entry, or a whole section.
    pub const WHOLE: u8 = 0;

    pub const KEY: u8 = 1;

    pub const CLASS: u8 = 2;

    pub const KIND: u8 = 3;

    pub const REVISION: u8 = 4;

    pub const STATE_LENGTH: u8 = 5;

    pub const PARAMETER_NAME: u8 = 6;

    pub const PARAMETER_VALUE: u8 = 7;

    pub const PARAMETER_COUNT: u8 = 8;

    pub const INPUT: u8 = 9;

    pub const INPUT_COUNT: u8 = 10;

    pub const OUTPUT: u8 = 11;

    pub const OUTPUT_COUNT: u8 = 12;

    pub const ENTRY_COUNT: u8 = 13;
}

// The section numbers.
#[derive(Clone, Copy)]
pub struct Section(pub u8);

impl Section {
    pub const PORTABILITY: u8 = 1;

    pub const ENUMS: u8 = 2;

    pub const BLOCKS: u8 = 3;

    pub const CONNECTORS: u8 = 4;

    pub const CONNECTIONS: u8 = 5;

    pub const SCHEDULE: u8 = 6;

    pub const CONNECTOR_ORDER: u8 = 7;

    pub const DRIVER_OF: u8 = 8;

    pub const STATE_SLOTS: u8 = 9;

    pub const EXTERNAL_INPUTS: u8 = 10;

    pub const BOUNDARY_OUTPUTS: u8 = 11;

    pub const INPUT_DEFINITIONS: u8 = 12;
}

// The tags of section 1.
#[derive(Clone, Copy)]
pub struct Portability(pub u8);

impl Portability {
    pub const PORTABLE: u8 = 0;

    pub const TARGET_BOUND: u8 = 1;

    // How many tags are known.
    pub const KNOWN: u8 = 2;
}

// The tags of block keys.
#[derive(Clone, Copy)]
pub struct BlockKey(pub u8);

impl BlockKey {
    pub const AUTHORED: u8 = 0;

    pub const PASS_THROUGH: u8 = 1;

    // Tag 2, a dense key, never stands in durable bytes.
    pub const KNOWN: u8 = 2;
}

// The directions of connectors.
#[derive(Clone, Copy)]
pub struct WireDir(pub u8);

impl WireDir {
    pub const IN: u8 = 0;

    pub const OUT: u8 = 1;

    pub const KNOWN: u8 = 2;
}

// The kinds of blocks.
#[derive(Clone, Copy)]
pub struct BlockKind(pub u8);

impl BlockKind {
    pub const ALGEBRAIC: u8 = 0;

    pub const STATEFUL: u8 = 1;

    pub const KNOWN: u8 = 2;
}

// The tags of value types and of values.
#[derive(Clone, Copy)]
pub struct WireValueType(pub u8);

impl WireValueType {
    pub const REAL: u8 = 0;

    pub const INTEGER: u8 = 1;

    pub const BOOLEAN: u8 = 2;

    pub const STRING: u8 = 3;

    pub const ENUM: u8 = 4;

    pub const KNOWN: u8 = 5;
}
