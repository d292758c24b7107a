// Laws of the text of certificates, each the contract of a function that does nothing.
ghost use Rattle.pc_cert_text.specs.Examples.{WorkedTexts};

/// Texts of a small sheet's certificates.
pub fn texts_are_worked()
    ensures { WorkedTexts }
{}
