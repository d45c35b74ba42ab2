//! Tests of the journal.
//!
//! `opening` tests what is found in bytes, and `damage` the places of damaged records. `calls` tests
//! creation and appends with each call of the disk failing in turn, and what each crash leaves.
//! `texts` puts journals together by hand, and `untold` is the disk that they are written to.

mod calls;
mod damage;
mod opening;
mod texts;
mod untold;
