//! How much a principal may add, how much a journal may have, and how many objects there may be.
use crate::tables::holds;
use std::alloc::AllocError;

const FULL: &str = "journal: a journal has 262144 entries
principals 75
all 1 262144 4096 1 p@ say p@ : ok -> each
1 p9 say p9 : ok -> 262144
1 p8 say p8 : ok -> JournalFull
1 p8 object x -> JournalFull
1 p8 proof o x : proof 1 ; 1 true_i : true ; end -> NoSuchObject
1 p10 say p10 : ok -> Quota
count -> 262144

journal: the lines of a journal have 33554432 bytes
principals 75
bytes 1 p10 say p10 : p(\"aaaaaaaaaaaaaaaaaaaaaaaaaaaaaaaaaaaaaaaaaaaaaaaaaaaaaaaaaaaaaaaaaaaaaaaaaaaaaaaaaaaaaaaaaaaaaaaaaaaaaaaaaaaaaaaaaaaaaaaaaaaaaaaaaaaaaaaaaaaaaaaaaaaaaaaaaaaaaaaaaaaaaaaaaaaaaaaaaaaaaaaaaaaaaaaaaaaaaaaaaaaaaaaaaaaaaaaaaaaaaaaaaaaaaaaaaa\") -> 256
all 1 131073 2048 1 p@ say p@ : p(\"aaaaaaaaaaaaaaaaaaaaaaaaaaaaaaaaaaaaaaaaaaaaaaaaaaaaaaaaaaaaaaaaaaaaaaaaaaaaaaaaaaaaaaaaaaaaaaaaaaaaaaaaaaaaaaaaaaaaaaaaaaaaaaaaaaaaaaaaaaaaaaaaaaaaaaaaaaaaaaaaaaaaaaaaaaaaaaaaaaaaaaaaaaaaaaaaaaaaaaaaaaaaaaaaaaaaaaaaaaaaaaaaaaaaaaaaaa\") -> each
1 p9 say p9 : ok -> JournalFull
count -> 131072

journal: there are 65536 objects
principals 27
all 0 65536 4096 1 p@ object o# -> each
1 p9 object o -> ObjectsFull
1 p10 object o -> Quota";

#[test]
fn journals_have_limits(rt: HostRuntime) -> Result<(), AllocError> {
    holds(&rt, rt.alloc(), FULL)
}

const TABLE: &str = "journal: a principal has 4096 entries
nexus 2|principal alice pw|principal bob pw|end|
bytes 1 alice say alice : ok -> 23
all 1 4097 4096 1 alice say alice : ok -> each
1 alice say alice : ok -> Quota
1 bob say bob : ok -> 4097
count -> 4097

journal: the lines of a principal have 524288 bytes
nexus 2|principal alice pw|end|
bytes 1 alice say alice : p(\"aaaaaaaaaaaaaaaaaaaaaaaaaaaaaaaaaaaaaaaaaaaaaaaaaaaaaaaaaaaaaaaaaaaaaaaaaaaaaaaaaaaaaaaaaaaaaaaaaaaaaaaaaaaaaaaaaaaaaaaaaaaaaaaaaaaaaaaaaaaaaaaaaaaaaaaaaaaaaaaaaaaaaaaaaaaaaaaaaaaaaaaaaaaaaaaaaaaaaaaaaaaaaaaaaaaaaaaaaaaaaaaaaaaaaa\") -> 256
all 1 2049 2048 1 alice say alice : p(\"aaaaaaaaaaaaaaaaaaaaaaaaaaaaaaaaaaaaaaaaaaaaaaaaaaaaaaaaaaaaaaaaaaaaaaaaaaaaaaaaaaaaaaaaaaaaaaaaaaaaaaaaaaaaaaaaaaaaaaaaaaaaaaaaaaaaaaaaaaaaaaaaaaaaaaaaaaaaaaaaaaaaaaaaaaaaaaaaaaaaaaaaaaaaaaaaaaaaaaaaaaaaaaaaaaaaaaaaaaaaaaaaaaaaaa\") -> each
1 alice say alice : p(\"aaaaaaaaaaaaaaaaaaaaaaaaaaaaaaaaaaaaaaaaaaaaaaaaaaaaaaaaaaaaaaaaaaaaaaaaaaaaaaaaaaaaaaaaaaaaaaaaaaaaaaaaaaaaaaaaaaaaaaaaaaaaaaaaaaaaaaaaaaaaaaaaaaaaaaaaaaaaaaaaaaaaaaaaaaaaaaaaaaaaaaaaaaaaaaaaaaaaaaaaaaaaaaaaaaaaaaaaaaaaaaaaaaaaaa\") -> Quota
1 alice delete 1 -> Quota

journal: a principal is known by name and secret
nexus 2|principal alice pw|principal bob pw|end|
1 alice hello bob pw -> Some(1)
1 alice hello bob pwx -> None
1 alice hello eve pw -> None";

#[test]
fn principals_have_limits(rt: HostRuntime) -> Result<(), AllocError> {
    holds(&rt, rt.alloc(), TABLE)
}
