// Each kind of item, each way of printing it, and the refusals.
use crate::cases::{prints, refused, refused_bytes, refused_consts};

// a file alone is one newline
#[test]
fn empty_file(rt: HostRuntime) {
    assert!(rt; prints(&[[0, 1, 0, 0]], b"", b"\n"));
}

#[test]
fn items_with_braces(rt: HostRuntime) {
    assert!(rt;
        prints(
            &[[0, 4, 0, 0], [10, 2, 1, 0], [11, 3, 2, 0], [12, 4, 3, 0]],
            b"S/U/E/",
            b"// AstId: 1\npub(self) struct S { ... }\n\n// AstId: 2\npub(self) union U { ... }\n\n// AstId: 3\npub(self) enum E { ... }\n",
        )
    );
}

#[test]
fn items_with_semicolons(rt: HostRuntime) {
    assert!(rt;
        prints(
            &[
                [0, 6, 0, 0],
                [13, 2, 1, 0],
                [14, 3, 2, 0],
                [15, 4, 3, 0],
                [16, 5, 1, 0],
                [16, 6, 0, 0],
            ],
            b"f/T/S/",
            b"// AstId: 1\npub(self) fn f;\n\n// AstId: 2\npub(self) type T;\n\n// AstId: 3\npub(self) static S = _;\n\n// AstId: 4\npub(self) const f = _;\n\n// AstId: 5\npub(self) const _ = _;\n",
        )
    );
}

#[test]
fn macros(rt: HostRuntime) {
    assert!(rt;
        prints(
            &[
                [0, 7, 0, 0],
                [22, 4, 0, 1],
                [31, 4, 0, 1],
                [32, 4, 1, 0],
                [23, 5, 1, 0],
                [24, 6, 2, 0],
                [22, 7, 0, 0],
            ],
            b"m/n/",
            b"// AstId: 1, SyntaxContextId: 0, ExpandTo: Items\n::m!(...);\n\n// AstId: 4\nmacro_rules! m { ... }\n\n// AstId: 5\npub(self) macro n { ... }\n",
        )
    );
}

#[test]
fn extern_items(rt: HostRuntime) {
    assert!(rt;
        prints(
            &[
                [0, 7, 0, 0],
                [21, 3, 1, 0],
                [34, 3, 0, 0],
                [25, 5, 0, 0],
                [13, 5, 2, 0],
                [21, 7, 1, 0],
                [34, 7, 2, 0],
            ],
            b"a/b/",
            b"// AstId: 1\npub(self) extern crate a as _;\n\n// AstId: 3\nextern {\n    // AstId: 4\n    pub(self) fn b;\n}\n\n// AstId: 5\npub(self) extern crate a as b;\n",
        )
    );
}

// braces of a module with nothing in it, and a module in another file
#[test]
fn empty_modules(rt: HostRuntime) {
    assert!(rt;
        prints(
            &[[0, 3, 0, 0], [17, 2, 1, 0], [17, 3, 1, 1]],
            b"m/",
            b"// AstId: 1\npub(self) mod m {\n}\n\n// AstId: 2\npub(self) mod m;\n",
        )
    );
}

// a trait or an impl ends without a newline, so that what follows it is not indented
#[test]
fn no_newline_after_trait_and_impl(rt: HostRuntime) {
    assert!(rt;
        prints(
            &[
                [0, 6, 0, 0],
                [17, 5, 1, 0],
                [18, 3, 2, 0],
                [13, 4, 3, 0],
                [19, 5, 0, 1],
                [19, 6, 0, 0],
            ],
            b"m/T/f/",
            b"// AstId: 1\npub(self) mod m {\n    // AstId: 2\n    pub(self) trait T { ... }\n\n// AstId: 3\n    pub(self) fn f;\n\n    // AstId: 4\n    impl { ... }}\n\n// AstId: 5\nimpl { ... }\n",
        )
    );
}

#[test]
fn newline_in_a_name_is_indented(rt: HostRuntime) {
    assert!(rt;
        prints(
            &[[0, 3, 0, 0], [17, 3, 1, 0], [13, 3, 2, 0]],
            b"m/a\nb/",
            b"// AstId: 1\npub(self) mod m {\n    // AstId: 2\n    pub(self) fn a\n    b;\n}\n",
        )
    );
}

#[test]
fn visibilities(rt: HostRuntime) {
    assert!(rt;
        prints(
            &[
                [0, 11, 0, 0],
                [13, 3, 1, 0],
                [30, 3, 0, 0],
                [13, 5, 1, 0],
                [30, 5, 0, 1],
                [13, 7, 1, 0],
                [30, 7, 0, 2],
                [13, 11, 1, 0],
                [30, 11, 0, 4],
                [31, 11, 0, 0],
                [32, 11, 0, 3],
            ],
            b"f/",
            b"// AstId: 1\npub fn f;\n\n// AstId: 3\npub(crate) fn f;\n\n// AstId: 5\npub(in super) fn f;\n\n// AstId: 7\npub(in crate) fn f;\n",
        )
    );
}

// `use a::{self, b::*, c as _};`
#[test]
fn use_groups(rt: HostRuntime) {
    assert!(rt;
        prints(
            &[
                [0, 15, 0, 0],
                [20, 15, 0, 0],
                [33, 15, 0, 2],
                [31, 5, 0, 0],
                [32, 5, 1, 0],
                [33, 8, 0, 0],
                [31, 8, 0, 0],
                [32, 8, 0, 1],
                [33, 11, 0, 1],
                [31, 11, 0, 0],
                [32, 11, 2, 0],
                [33, 15, 0, 0],
                [31, 14, 0, 0],
                [32, 14, 3, 0],
                [34, 15, 0, 0],
            ],
            b"a/b/c/",
            b"// AstId: 1\npub(self) use a::{self, b::*, c as _};\n",
        )
    );
}

// `use ::{self::super::a};`, and a glob with an alias, which is passed over
#[test]
fn use_after_bare_colons(rt: HostRuntime) {
    assert!(rt;
        prints(
            &[
                [0, 11, 0, 0],
                [20, 8, 0, 0],
                [33, 8, 0, 6],
                [33, 8, 0, 0],
                [31, 8, 0, 0],
                [32, 6, 0, 1],
                [32, 7, 0, 2],
                [32, 8, 1, 0],
                [20, 11, 0, 0],
                [33, 11, 0, 1],
                [34, 11, 1, 0],
            ],
            b"a/",
            b"// AstId: 1\npub(self) use ::{super::a};\n",
        )
    );
}

// `#![a]`, then `#[b = 1]`, a true condition, `#[[missing name]]`, a false condition, and what is not collected
#[test]
fn attributes(rt: HostRuntime) {
    assert!(rt;
        prints(
            &[
                [0, 14, 0, 0],
                [36, 4, 0, 0],
                [31, 4, 0, 0],
                [32, 4, 1, 0],
                [13, 14, 5, 0],
                [36, 8, 3, 1],
                [31, 8, 0, 0],
                [32, 8, 2, 0],
                [36, 9, 4, 3],
                [36, 10, 0, 0],
                [36, 11, 4, 4],
                [36, 14, 3, 2],
                [31, 14, 0, 0],
                [32, 14, 2, 0],
            ],
            b"a/b/ = 1/c/f/",
            b"#![a]\n\n#[b = 1]\n#[[missing name]]\n#[cfg(c)]\n// AstId: 4\npub(self) fn f;\n",
        )
    );
}

// items without a name, a use without a tree, a macro call without a path
#[test]
fn passed_over(rt: HostRuntime) {
    assert!(rt;
        prints(
            &[
                [0, 11, 0, 0],
                [10, 2, 0, 0],
                [11, 3, 0, 0],
                [17, 5, 0, 0],
                [13, 5, 1, 0],
                [18, 6, 0, 0],
                [20, 7, 0, 0],
                [22, 8, 0, 0],
                [21, 9, 0, 0],
                [23, 10, 0, 0],
                [26, 11, 1, 0],
            ],
            b"f/",
            b"\n",
        )
    );
}

// the buffer is one byte too short, and just long enough
#[test]
fn room_for_the_text(rt: HostRuntime) {
    assert_eq!(rt; refused(&[[0, 2, 0, 0], [19, 2, 0, 0]], b"", 24), 9);
    assert_eq!(rt; refused(&[[0, 2, 0, 0], [19, 2, 0, 0]], b"", 25), 0);
}

// a table is full: the 513th small record
#[test]
fn table_full(rt: HostRuntime) {
    assert_eq!(rt; refused_consts(512), 0);
    assert_eq!(rt; refused_consts(513), 6);
}

// a form that is cut short, a number that is not the shortest, a kind that does not exist, two equal texts
#[test]
fn refused_forms(rt: HostRuntime) {
    assert_eq!(rt; refused_bytes(&[1, 0, 0, 1, 0, 0, 0]), 1);
    assert_eq!(rt; refused_bytes(&[1, 0, 0, 0x81, 0, 0, 0, 0, 0]), 2);
    assert_eq!(rt; refused(&[[0, 2, 0, 0], [9, 2, 0, 0]], b"", 100), 3);
    assert_eq!(rt; refused(&[[0, 1, 0, 0]], b"a/a/", 100), 3);
}
