// Windows and streams of one device, read and nothing written: one reading for the lister, the tidier and salvage.
#![tactic(auto)]

pub mod stop;
pub mod stream;
pub mod whole;
pub mod window;
