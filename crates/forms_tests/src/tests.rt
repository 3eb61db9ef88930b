// The cases, each with its answer.
#[cfg(test)]
mod tests {
    use crate::cases::*;
    use crate::draft::{Draft, open_packed, open_words};
    use forms::number::{NumberFault, read_number};
    use forms::packed::PackedSource;
    use forms::word::WordSource;
    use std::process::Abort;
    use std::test::Fail;
    use syntax::refusal::Refusal;
    use syntax::source::SyntaxSource;

    // The refusal's number, or 0.
    fn number_of(answer: Result<(), Refusal>) -> u32 {
        answer.map_or_else(u32::from, |()| 0)
    }

    fn check_packed(rt: &impl Abort, cases: &[(&[u8], u32)]) {
        for (bytes, number) in cases {
            assert_eq!(rt; number_of(open_packed(bytes)), *number);
        }
    }

    fn check_words(rt: &impl Abort, cases: &[(&[u32], &[u8], u32)]) {
        for (words, bytes, number) in cases {
            assert_eq!(rt; number_of(open_words(words, bytes)), *number);
        }
    }

    // Both forms answer this.
    fn check(rt: &impl Abort, draft: &Draft, number: u32) {
        assert_eq!(rt; number_of(draft.open_packed()), number);
        assert_eq!(rt; number_of(draft.open_words()), number);
    }

    fn check_rows(rt: &impl Abort, cases: &[(&[Row], u32)]) {
        for (case, number) in cases {
            check(rt, &rows(case), *number);
        }
    }

    #[test]
    fn numbers_are_read(rt: HostRuntime) {
        assert_eq!(rt; read_number(&[0], 0), Ok((0, 1)));
        assert_eq!(rt; read_number(&[9, 127, 9], 1), Ok((127, 2)));
        assert_eq!(rt; read_number(&[0x80, 1], 0), Ok((128, 2)));
        assert_eq!(rt;
            read_number(&[0xff, 0xff, 0xff, 0xff, 15], 0),
            Ok((4_294_967_295, 5))
        );
    }

    #[test]
    fn numbers_are_refused(rt: HostRuntime) {
        let cut = Err(NumberFault::CutShort);
        let wide = Err(NumberFault::TooWide);
        let long = Err(NumberFault::NotShortest);
        assert_eq!(rt; read_number(&[1], 7), cut);
        assert_eq!(rt; read_number(&[0x80, 0x80], 0), cut);
        assert_eq!(rt; read_number(&[0x80, 0x80, 0, 1], 0), long);
        assert_eq!(rt; read_number(&[0xff, 0xff, 0xff, 0xff, 0], 0), long);
        assert_eq!(rt; read_number(&[0xff, 0xff, 0xff, 0xff, 16], 0), wide);
    }

    // A module `m` with a function `f` and an impl.
    const PACKED: [u8; 30] = [
        4, 2, 0, 4, 0, 0, 0, 0, 17, 4, 1, 0, 0, 0, 13, 3, 2, 0, 0, 0, 19, 4, 0, 0, 0, 0, 1, 109, 1,
        102,
    ];

    const WORDS: [u32; 30] = [
        4, 2, 0, 4, 0, 0, 0, 0, 17, 4, 1, 0, 0, 0, 13, 3, 2, 0, 0, 0, 19, 4, 0, 0, 0, 0, 0, 1, 1, 1,
    ];

    #[test]
    fn every_cut_is_refused(rt: HostRuntime) {
        assert_eq!(rt; number_of(open_packed(&PACKED)), 0);
        assert_eq!(rt; number_of(open_words(&WORDS, b"mf")), 0);
        for len in 0..30 {
            assert_eq!(rt; number_of(open_packed(&PACKED[..len])), 1);
            assert_eq!(rt; number_of(open_words(&WORDS[..len], b"mf")), 1);
        }
    }

    #[test]
    fn packed_form_is_read_from_the_front(rt: HostRuntime) {
        check_packed(
            &rt,
            &[
                (&[1, 0, 0, 1, 0, 0, 0, 0], 0),
                // one byte too many
                (&[1, 0, 0, 1, 0, 0, 0, 0, 7], 1),
                // a text's bytes past the end
                (&[1, 1, 0, 1, 0, 0, 0, 0, 2, 97], 1),
                // 5,000 nodes, which are not there
                (&[0x88, 39, 0, 0, 1, 0, 0, 0, 0], 1),
                (&[0xff, 0xff, 0xff, 0xff, 15, 0], 1),
                // an unlawful node, and then a number that is not the shortest
                (&[2, 0, 99, 1, 0, 0, 0, 0, 0x80, 0], 2),
                (&[1, 0, 0, 1, 0, 0, 0, 0xff, 0xff, 0xff, 0xff, 15], 0),
                (&[1, 0, 0, 1, 0, 0, 0, 0xff, 0xff, 0xff, 0xff, 16], 2),
            ],
        );
    }

    #[test]
    fn word_form_is_counted(rt: HostRuntime) {
        check_words(
            &rt,
            &[
                (&[1, 0, 0, 1, 0, 0, 0, 0], b"", 0),
                // one word too many
                (&[1, 0, 0, 1, 0, 0, 0, 0, 7], b"", 1),
                // counts that no words follow
                (&[0xffff_ffff, 0xffff_ffff], b"", 1),
                (&[0, 0], b"", 3),
                // bytes of no text, and texts that share bytes
                (&[1, 1, 0, 1, 0, 0, 0, 0, 1, 1], b"abc", 0),
                (&[1, 2, 0, 1, 0, 0, 0, 0, 0, 2, 1, 2], b"abc", 0),
                // equal texts in two places
                (&[1, 2, 0, 1, 0, 0, 0, 0, 0, 1, 1, 1], b"aa", 3),
                // a text that ends past the bytes, before the law is asked
                (&[1, 1, 99, 1, 0, 0, 0, 0, 2, 1], b"abc", 3),
                (&[1, 1, 99, 1, 0, 0, 0, 0, 3, 1], b"abc", 1),
                (
                    &[1, 1, 0, 1, 0, 0, 0, 0, 0xffff_ffff, 0xffff_ffff],
                    b"abc",
                    1,
                ),
            ],
        );
    }

    #[test]
    fn counts_are_limited(rt: HostRuntime) {
        check(&rt, &flat(4096), 0);
        check(&rt, &flat(4097), 3);
        check(&rt, &texts(1024), 0);
        check(&rt, &texts(1025), 3);
        check(&rt, &nested(40), 0);
        check(&rt, &nested(41), 3);
        check(&rt, &segments(0), 3);
        check(&rt, &segments(64), 0);
        check(&rt, &segments(65), 3);
    }

    #[test]
    fn texts_are_judged(rt: HostRuntime) {
        check(&rt, &two(b"a", b""), 3);
        check(&rt, &two(b"a", b"b"), 0);
        check(&rt, &two(b"a", b"a"), 3);
        // one the front of the other
        check(&rt, &two(b"a", b"aa"), 0);
        check(&rt, &two(b"a", &[7; 255]), 0);
        check(&rt, &two(b"a", &[7; 256]), 3);
    }

    #[test]
    fn root_is_judged(rt: HostRuntime) {
        check_packed(
            &rt,
            &[
                (&[0, 0], 3),
                // kind, end, text, mark and range
                (&[1, 0, 13, 1, 0, 0, 0, 0], 3),
                (&[1, 0, 0, 2, 0, 0, 0, 0], 3),
                (&[1, 0, 0, 1, 1, 0, 0, 0], 3),
                (&[1, 0, 0, 1, 0, 1, 0, 0], 3),
                (&[1, 0, 0, 1, 0, 0, 1, 0], 3),
            ],
        );
    }

    #[test]
    fn tree_is_judged(rt: HostRuntime) {
        check_rows(
            &rt,
            &[
                (&[[0, 3, 0], [13, 2, 0], [13, 3, 0]], 0),
                // a file in a file
                (&[[0, 2, 0], [0, 2, 0]], 3),
                // an end at the node, past the parent's, and within a child
                (&[[0, 2, 0], [13, 1, 0]], 3),
                (&[[0, 2, 0], [13, 3, 0]], 3),
                (&[[0, 4, 0], [17, 3, 0], [13, 4, 0], [13, 4, 0]], 3),
            ],
        );
    }

    // Each kind of item with its last mark, at 10 and up.
    const LAST_MARKS: [u32; 17] = [2, 0, 0, 0, 0, 0, 0, 1, 0, 1, 0, 0, 4, 0, 0, 0, 0];

    #[test]
    fn items_are_judged(rt: HostRuntime) {
        for (i, last) in LAST_MARKS.iter().enumerate() {
            let kind = 10 + i as u32;
            check_rows(
                &rt,
                &[
                    (&[[0, 2, 0], [kind, 2, *last]], 0),
                    (&[[0, 2, 0], [kind, 2, *last + 1]], 3),
                    // an attribute, and what no item has
                    (&[[0, 3, 0], [kind, 3, 0], [36, 3, 0]], 0),
                    (&[[0, 3, 0], [kind, 3, 0], [32, 3, 0]], 3),
                ],
            );
        }
        // kinds that are none
        check_rows(
            &rt,
            &[(&[[0, 2, 0], [9, 2, 0]], 3), (&[[0, 2, 0], [27, 2, 0]], 3)],
        );
    }

    // Each kind below items: a good mark, a wrong mark and a wrong child.
    #[test]
    fn parts_are_judged(rt: HostRuntime) {
        check_rows(
            &rt,
            &[
                // Vis
                (&[[0, 3, 0], [13, 3, 0], [30, 3, 3]], 0),
                (&[[0, 3, 0], [13, 3, 0], [30, 3, 5]], 3),
                (&[[0, 4, 0], [13, 4, 0], [30, 4, 0], [36, 4, 0]], 3),
                // Path
                (&[[0, 4, 0], [22, 4, 0], [31, 4, 1], [32, 4, 0]], 0),
                (&[[0, 4, 0], [22, 4, 0], [31, 4, 2], [32, 4, 0]], 3),
                (&[[0, 4, 0], [22, 4, 0], [31, 4, 1], [33, 4, 0]], 3),
                // Segment
                (&[[0, 4, 0], [22, 4, 0], [31, 4, 0], [32, 4, 4]], 0),
                (&[[0, 4, 0], [22, 4, 0], [31, 4, 0], [32, 4, 5]], 3),
                (
                    &[[0, 5, 0], [22, 5, 0], [31, 5, 0], [32, 5, 0], [36, 5, 0]],
                    3,
                ),
                // UseTree
                (&[[0, 3, 0], [20, 3, 0], [33, 3, 6]], 0),
                (&[[0, 3, 0], [20, 3, 0], [33, 3, 3]], 3),
                (&[[0, 3, 0], [20, 3, 0], [33, 3, 4]], 3),
                (&[[0, 3, 0], [20, 3, 0], [33, 3, 7]], 3),
                (&[[0, 4, 0], [20, 4, 0], [33, 4, 0], [33, 4, 0]], 3),
                // Rename
                (&[[0, 3, 0], [21, 3, 0], [34, 3, 0]], 0),
                (&[[0, 3, 0], [21, 3, 0], [34, 3, 1]], 3),
                (&[[0, 4, 0], [21, 4, 0], [34, 4, 0], [36, 4, 0]], 3),
                // Field
                (&[[0, 3, 0], [10, 3, 2], [35, 3, 0]], 0),
                (&[[0, 3, 0], [10, 3, 2], [35, 3, 1]], 3),
                (&[[0, 4, 0], [10, 4, 2], [35, 4, 0], [36, 4, 0]], 3),
                // Attr
                (&[[0, 2, 0], [36, 2, 4]], 0),
                (&[[0, 2, 0], [36, 2, 5]], 3),
                (&[[0, 3, 0], [36, 3, 0], [36, 3, 0]], 3),
                // File
                (&[[0, 2, 0], [30, 2, 0]], 3),
            ],
        );
    }

    #[test]
    fn children_are_judged(rt: HostRuntime) {
        check_rows(
            &rt,
            &[
                // an attribute before a visibility, and after it
                (&[[0, 4, 0], [13, 4, 0], [36, 3, 0], [30, 4, 0]], 0),
                (&[[0, 4, 0], [13, 4, 0], [30, 3, 0], [36, 4, 0]], 3),
                // two attributes, and two visibilities
                (&[[0, 4, 0], [13, 4, 0], [36, 3, 0], [36, 4, 0]], 0),
                (&[[0, 4, 0], [13, 4, 0], [30, 3, 0], [30, 4, 0]], 3),
                // two trees of a use, and of a group
                (&[[0, 4, 0], [20, 4, 0], [33, 3, 0], [33, 4, 0]], 3),
                (
                    &[[0, 5, 0], [20, 5, 0], [33, 5, 2], [33, 4, 0], [33, 5, 0]],
                    0,
                ),
                // a field of a record
                (&[[0, 3, 0], [10, 3, 0], [35, 3, 0]], 3),
                // an item of an inline module, and of an outline one
                (&[[0, 3, 0], [17, 3, 0], [13, 3, 0]], 0),
                (&[[0, 3, 0], [17, 3, 1], [13, 3, 0]], 3),
                // a static and a constant of an extern block
                (&[[0, 3, 0], [25, 3, 0], [15, 3, 0]], 0),
                (&[[0, 3, 0], [25, 3, 0], [16, 3, 0]], 3),
                // an impl has no visibility, and one with mark 4 has a path
                (&[[0, 3, 0], [19, 3, 0], [30, 3, 0]], 3),
                (&[[0, 3, 0], [13, 3, 0], [30, 3, 4]], 3),
            ],
        );
    }

    #[test]
    fn refusal_leaves_the_packed_form(rt: HostRuntime) -> Result<(), Fail> {
        let mut source = PackedSource::least();
        assert_eq!(rt; source.open(&PACKED), Ok(()));
        assert_eq!(rt; source.open(&[1, 0]), Err(Refusal::Form));
        assert!(rt; source.node(3).is_some() && source.node(4).is_none());
        assert!(rt; source.text(0).is_none() && source.text(3).is_none());
        assert_eq!(rt; source.text(2).ok_or("no text")?, b"f".as_slice());
        Ok(())
    }

    #[test]
    fn refusal_leaves_the_word_form(rt: HostRuntime) -> Result<(), Fail> {
        let mut source = WordSource::least();
        assert_eq!(rt; source.open(&WORDS, b"mf"), Ok(()));
        assert_eq!(rt; source.open(&[1, 0], b""), Err(Refusal::Form));
        assert!(rt; source.node(3).is_some() && source.node(4).is_none());
        assert!(rt; source.text(0).is_none() && source.text(3).is_none());
        assert_eq!(rt; source.text(2).ok_or("no text")?, b"f".as_slice());
        Ok(())
    }
}
