use super::*;
use std::test::*;

/// Expected engines are from an independent ChaCha8.
#[test]
fn the_first_chunks_go_where_chacha_says(rt: HostRuntime) {
    for (seed, stream, engines, want) in [
        (1, 0, 8, [5, 3, 0, 6, 7, 5, 3, 3]),
        (1, 1, 8, [6, 3, 5, 0, 3, 3, 1, 1]),
        (72623859790382856, 0, 8, [0, 5, 5, 4, 6, 5, 6, 7]),
        (1, 0, 3, [0, 1, 2, 0, 2, 1, 1, 1]),
        (7, 26, 5, [1, 2, 0, 2, 0, 3, 4, 3]),
    ] {
        let mut placer = Placer::new(seed, stream, engines);
        for (k, &engine) in want.iter().enumerate() {
            assert_eq!(&rt; placer.next(), engine, "{seed} {stream} {engines}: {k}");
        }
    }
}
