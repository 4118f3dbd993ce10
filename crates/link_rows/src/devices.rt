// Devices as their callers meet them: generic code over each, and the answers of single calls.
mod doors;
pub mod links;
pub mod logs;
mod over_tcp;
pub mod streams;

// Whoever serves peers hands their links and its doors to threads.
fn crosses<T: Send>(_value: &T) {}
