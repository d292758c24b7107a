//! Laws: the text of a certificate reads back as that certificate, and as nothing else.
//!
//! The writer (`pc_cert_text`) and the reader (`pc_cert`) know nothing of each other: one gives a certificate's text by a
//! function, the other finds the certificate of a text by the forms of its lines. What is proved here ties the two: each
//! line that is written has a form and says what it was written from, the lines stand in a legal order, and what they say
//! together is the certificate. That a text has one reading at most (`pc_cert`) gives the rest.
#![tactic(auto)]

mod law;

pub use law::{lines_say_certificates, texts_read_back, texts_read_back_alone};
