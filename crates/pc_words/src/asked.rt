// What words ask for.

/// What is to be done.
#[derive(Clone, Copy, PartialEq, Eq)]
pub enum Mode<'a> {
    /// To run a sheet and its commands, both from the input.
    Replay,
    /// To run the commands of the input on the sheet of this file.
    Edit(&'a str),
    /// To check the certificate of the input for the sheet of this file.
    Check(&'a str),
    /// To merge the journal of this file with that of the input.
    Merge(&'a str),
    /// To run the posts of the input's journal on the sheet of this file.
    Posts(&'a str),
    /// To run the generated sheet of this many blocks, from 1 to 256.
    Demo(u32),
}

/// What the words ask for.
#[derive(Clone, Copy, PartialEq, Eq)]
pub struct Request<'a> {
    /// What is to be done.
    pub mode: Mode<'a>,
    /// The most propagations of each search: of the load, and of each edit, certificate of sets and asked formula; from 1 to
    /// 1,000,000,000,000.
    pub budget: u64,
}

/// Why words give no request.
#[derive(Clone, Copy, PartialEq, Eq)]
pub enum WordsFault {
    /// The words don't fit.
    Usage,
    /// Memory was wanted to read words that fit.
    Memory,
}
