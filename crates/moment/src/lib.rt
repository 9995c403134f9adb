// Moments as text: UTCTime, GeneralizedTime and RFC 3339.
#![tactic(auto)]

mod forms;
mod spelled;
pub mod texts;

pub use crate::texts::{
    FIRST_OF_2050, general_text, read_general, read_rfc3339, read_utc, rfc3339_text, utc_text,
};
pub use calendar::times::{LAST_MOMENT, is_moment};
