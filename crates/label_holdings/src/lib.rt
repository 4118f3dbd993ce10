//! Who holds which label at the end of a journal, who said it, and by which entry it came to its holder.
#![tactic(auto)]

mod holdings;
mod label_tenures;

pub use holdings::{Holding, holding_of};
pub use label_tenures::{Tenure, tenures};
