//! How large a book may grow.

use commit_book::Limits;

#[test]
fn limits_of_books(rt: HostRuntime) {
    for (entries, kept, there) in [
        (0, 8, false),
        (1, 1, true),
        (1_000_000, 64, true),
        (1_000_001, 64, false),
        (100_000, 0, false),
        (100_000, 65, false),
    ] {
        let limits = Limits::new(entries, kept);
        assert_eq!(rt; limits.is_some(), there, "{entries} {kept}");
        assert_eq!(rt;
            limits.map(|limits| (limits.entries(), limits.kept())),
            there.then_some((entries, kept)),
            "{entries} {kept}"
        );
    }
}
