//! Laws over the definitions, each the contract of a function that does nothing.
ghost use Rattle.pc_run_laws.specs.ByStatus.{CertificatesAreRefused, MemoryIsWanted, UsageIsOfWords, WordsAreTold};

/// A run ends in `Usage` only where its words don't fit: then the usage line was told and nothing else happened or was
/// noted. Where they don't fit it ends so, or in a failed write.
pub fn usage_is_told_of_words()
    ensures only { UsageIsOfWords }
    ensures whenever { WordsAreTold }
{}

/// A run ends in `CertRefused` only where its words ask to check a file whose text reads as a sheet, and all of the input
/// is no certificate in this sheet or has another verdict than accepted.
pub fn certificates_are_refused_in_checks()
    ensures { CertificatesAreRefused }
{}

/// A run ends in `Memory` only where memory was wanted at its words, at the sheet, at the certificate or at a journal; or at
/// a line of those that it answered, which are all of its mode.
pub fn memory_is_told_where_wanted()
    ensures { MemoryIsWanted }
{}
