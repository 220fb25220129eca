//! Tests of the program and its reports; of the verifier's calls, and of a host whose memory is refused (the rows of both stand in
//! `jv_host_rows`); and of the shared store, beside what its contract says: the same list of calls on both implementations, whose
//! answers and content are compared with plain lists.
#![tactic(auto)]

#[cfg(test)]
mod beyond;
#[cfg(test)]
mod calls;
#[cfg(test)]
mod disk;
#[cfg(test)]
mod escapes;
#[cfg(test)]
mod feeds;
#[cfg(test)]
mod files;
#[cfg(test)]
mod folder;
#[cfg(test)]
mod hostile;
#[cfg(test)]
mod json;
#[cfg(test)]
mod known;
#[cfg(test)]
mod library;
#[cfg(test)]
mod malformed;
#[cfg(test)]
mod memory;
#[cfg(test)]
mod program;
#[cfg(test)]
mod progress;
#[cfg(test)]
mod raw;
#[cfg(test)]
mod refusals;
#[cfg(test)]
mod reports;
#[cfg(test)]
mod stores;
#[cfg(test)]
mod system;
#[cfg(test)]
mod twin;
