//! How large workloads are, by a program apart from this one that follows the format; and that memory is enough for them.
use rl_mem::SureArchive;
use rl_ports::Archive;
use std::test::Fail;
use workload::generate;

// How many logs there are, and how many bytes they have together.
fn size_of(archive: &mut SureArchive) -> (u32, u64) {
    let mut logs = 0u32;
    let mut bytes = 0u64;
    for seq in 1..100 {
        if let Ok(Some(length)) = archive.length(seq) {
            logs = logs.saturating_add(1);
            bytes = bytes.saturating_add(length);
        }
    }
    (logs, bytes)
}

#[test]
fn workloads_have_their_sizes(rt: HostRuntime) -> Result<(), Fail> {
    let cases = [
        (0, 0, (0, 0)),
        (0, 1, (1, 330)),
        (14, 3, (1, 744)),
        (1, 20000, (10, 9_047_858)),
    ];
    for (seed, txns, want) in cases {
        let mut archive = generate(rt.alloc(), seed, txns)?;
        let found = size_of(&mut archive);
        assert_eq!(rt; found, want, "of {seed} {txns}");
    }
    Ok(())
}
