//! The check of a certificate of a program by their texts: what they spell (`certificate.rt` begins), and then the report of the
//! certificate's bounds (`accept.rt`).

pub(crate) mod accept;
pub(crate) mod certificate;
