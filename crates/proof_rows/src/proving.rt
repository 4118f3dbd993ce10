// Chains that are found, and goals that nobody says.
mod cases;
mod chains;
mod limits;
