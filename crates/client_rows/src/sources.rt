// Reading over a source that fails or has too much.
use nx_io::MemSource;
use run_streams::{ReadError, read_whole};
use std::alloc::AllocError;

#[test]
fn a_source_is_read_to_its_end(rt: HostRuntime) -> Result<(), AllocError> {
    let alloc = rt.alloc();
    let mut source = MemSource::new(alloc, b"nexus 2\nend\n", 5, &[])?;
    let text = read_whole(alloc, &mut source);
    assert!(rt; text.is_ok_and(|text| text.as_slice() == b"nexus 2\nend\n".as_slice()));
    let mut failing = MemSource::new(alloc, b"nexus 2\nend\n", 5, &[2])?;
    assert!(rt; matches!(read_whole(alloc, &mut failing), Err(ReadError::Failed)));
    Ok(())
}
