//! Tests of what neither a contract nor a case shows: the adapters over real files, the memory page by page, runs that
//! must agree, command lines with empty words, and each public call that may be out of memory and that no command makes,
//! with ample memory.
#![tactic(auto)]

#[cfg(test)]
mod adapters;
#[cfg(test)]
mod boards;
#[cfg(test)]
mod call;
#[cfg(test)]
mod pages;
#[cfg(test)]
mod runs;
#[cfg(test)]
mod words;
