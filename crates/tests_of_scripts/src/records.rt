//! Records by calls: what is read under a limit of bytes, what a writer that fails has got, which records say the same, and sites that
//! have none.
mod fixtures;
mod limits;
mod same;
mod sites;
mod writing;
