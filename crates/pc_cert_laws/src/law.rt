// Laws over the definitions, each the contract of a function that does nothing.
ghost use Rattle.pc_cert_laws.specs.ReadBack.{ReadersReadBack, CertificatesReadBack, TextsReadBackAlone};
ghost use Rattle.pc_cert_laws.specs.Said.{LinesSayCertificates};

use pc_cert::certificates_have_one_reading;

/// What the lines of a certificate's text say stands in a legal order and is that certificate.
pub fn lines_say_certificates()
    ensures { LinesSayCertificates }
{}

/// The text of each certificate that can be written is read, in a well-formed sheet, as that certificate.
pub fn texts_read_back()
    ensures { CertificatesReadBack }
{}

/// It is read as nothing else, so a reader answers that certificate, or want of memory.
pub fn texts_read_back_alone()
    ensures texts { TextsReadBackAlone }
    ensures readers { ReadersReadBack }
{
    certificates_have_one_reading();
}
