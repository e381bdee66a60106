//! What the words ask for.

/// The text of a race.
#[derive(Debug, Drop, PartialEq, Eq)]
pub enum Chosen {
    /// That of the file of this name.
    File(String),
    /// The text that is made of this seed, with so many regions.
    Made(u32, u32),
}

/// A race of workers over the regions of a text.
#[derive(Debug, Drop, PartialEq, Eq)]
pub struct RaceRequest {
    /// The text.
    pub program: Chosen,
    /// How many workers race.
    pub workers: u32,
    /// How many tasks a group has at most.
    pub group: u32,
    /// How many steps the text takes at most.
    pub budget: u64,
    /// The file in which the journal is stored.
    pub journal: Option<String>,
    /// Whether the journal is played, and both reports are compared.
    pub confirm: bool,
}

/// What waits for nobody.
#[derive(Debug, Drop, PartialEq, Eq)]
pub enum PlainRequest {
    /// To run the text in this file within so many steps.
    Seq {
        program: String,
        budget: u64,
    },
    /// To tell what it means within so many steps.
    Mean {
        program: String,
        budget: u64,
    },
    /// To check it.
    Check {
        program: String,
    },
    /// To play a schedule on it.
    Replay {
        program: String,
        schedule: String,
        group: u32,
        budget: u64,
    },
    /// To write the text that is made of this seed, with so many regions.
    Text {
        seed: u32,
        regions: u32,
    },
}

/// What the words ask for.
#[derive(Debug, Drop, PartialEq, Eq)]
pub enum Request {
    /// A race.
    Race(RaceRequest),
    /// What waits for nobody.
    Plain(PlainRequest),
}

/// Why words give no request.
#[derive(Clone, Copy, Debug, PartialEq, Eq)]
pub enum WordFault {
    /// They ask for nothing that `bop` does.
    BadWords,
    /// There was no memory for the names in them.
    OutOfMemory,
}
