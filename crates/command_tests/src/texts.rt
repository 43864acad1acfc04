//! What `types` and `plan` write of programs.

use crate::calls::{Case, first_other};
use std::test::Fail;

/// What comes of the types of programs.
const TYPES: &[Case] = &[
    Case {
        files: &["val r = ref nil\nval _ = r := [1]\n"],
        store: &[],
        out: &[],
        written: "val r : int list ref\n",
        error: "",
        status: 0,
    },
    Case {
        files: &["val r = ref nil\n"],
        store: &[],
        out: &[],
        written: "val r : '_a list ref\n",
        error: "",
        status: 0,
    },
    Case {
        files: &["fun id x = x\n"],
        store: &[],
        out: &[],
        written: "val id : 'a -> 'a\n",
        error: "",
        status: 0,
    },
    Case {
        files: &["fun f x = x", "fun eq (x, y) = x = y"],
        store: &[],
        out: &[],
        written: "val f : 'a -> 'a\nval eq : ''a * ''a -> bool\n",
        error: "",
        status: 0,
    },
    Case {
        files: &[""],
        store: &[],
        out: &[],
        written: "",
        error: "",
        status: 0,
    },
    Case {
        files: &["val _ = print \"a\" val x = print"],
        store: &[],
        out: &[],
        written: "val x : string -> unit\n",
        error: "",
        status: 0,
    },
    Case {
        files: &["val r = ref nil and s = ref NONE"],
        store: &[],
        out: &[],
        written: "val r : '_a list ref\nval s : '_b option ref\n",
        error: "",
        status: 0,
    },
    Case {
        files: &["val f = (fn x => x) (fn x => x)\nval g = f\nval u = ()"],
        store: &[],
        out: &[],
        written: "val f : '_a -> '_a\nval g : '_a -> '_a\nval u : unit\n",
        error: "",
        status: 0,
    },
    Case {
        files: &[
            "val (a, b) = (1, #\"c\") val c = {x = a, y = b}\nlocal val d = 2 in val e = d end",
        ],
        store: &[],
        out: &[],
        written: "val a : int\nval b : char\nval c : {x : int, y : char}\nval e : int\n",
        error: "",
        status: 0,
    },
    Case {
        files: &["fun f x y z = (x, {a = y, b = [z]}, fn () => x)"],
        store: &[],
        out: &[],
        written: "val f : 'a -> 'b -> 'c -> 'a * {a : 'b, b : 'c list} * (unit -> 'a)\n",
        error: "",
        status: 0,
    },
    Case {
        files: &[
            "datatype ('a, 'b) pair = Pair of 'a * 'b\nval p = fn (x, y) => Pair (x, y)\nexception E of int\nval e = E",
        ],
        store: &[],
        out: &[],
        written: "val p : 'a * 'b -> ('a, 'b) pair\nval e : int -> exn\n",
        error: "",
        status: 0,
    },
    Case {
        files: &[
            "val rec even = fn 0 => true | n => odd (n - 1) and odd = fn 0 => false | n => even (n - 1)",
        ],
        store: &[],
        out: &[],
        written: "val even : int -> bool\nval odd : int -> bool\n",
        error: "",
        status: 0,
    },
    Case {
        files: &["val x = (nil : 'a list)\nval y : 'a list = nil"],
        store: &[],
        out: &[],
        written: "val x : 'a list\nval y : 'a list\n",
        error: "",
        status: 0,
    },
    Case {
        files: &["val x = 1 + true"],
        store: &[],
        out: &[],
        written: "",
        error: "f.sml:1:1: refused 12 BadType\n",
        status: 2,
    },
    Case {
        files: &["val x = 1\nval y = x 2\n"],
        store: &[],
        out: &[],
        written: "",
        error: "f.sml:2:1: refused 12 BadType\n",
        status: 2,
    },
    Case {
        files: &["val x = 1", "val y = x 2"],
        store: &[],
        out: &[],
        written: "",
        error: "g.sml:1:1: refused 12 BadType\n",
        status: 2,
    },
    Case {
        files: &["val r = ref nil\nval _ = r := [1]\nval _ = r := [\"a\"]\n"],
        store: &[],
        out: &[],
        written: "",
        error: "f.sml:3:1: refused 12 BadType\n",
        status: 2,
    },
    Case {
        files: &["val r = ref nil\ndatatype t = A\nval _ = r := [A]"],
        store: &[],
        out: &[],
        written: "",
        error: "f.sml:3:1: refused 12 BadType\n",
        status: 2,
    },
    Case {
        files: &["datatype t = A | B of t -> t\nval _ = A = A\n"],
        store: &[],
        out: &[],
        written: "",
        error: "f.sml:2:1: refused 12 BadType\n",
        status: 2,
    },
    Case {
        files: &["val x = let datatype t = A in A end"],
        store: &[],
        out: &[],
        written: "",
        error: "f.sml:1:1: refused 12 BadType\n",
        status: 2,
    },
    Case {
        files: &["fun h (f : int -> int) = f 1 val g = h h"],
        store: &[],
        out: &[],
        written: "",
        error: "f.sml:1:30: refused 12 BadType\n",
        status: 2,
    },
    Case {
        files: &["val x = y val z = 1 2"],
        store: &[],
        out: &[],
        written: "",
        error: "f.sml:1:9: refused 10 Unbound\n",
        status: 2,
    },
    Case {
        files: &["val _ = 1 2\nval _ = ("],
        store: &[],
        out: &[],
        written: "",
        error: "f.sml:2:10: refused 4 Syntax\n",
        status: 2,
    },
    Case {
        files: &["fun id x = x\n"],
        store: &[],
        out: &[1],
        written: "",
        error: "fault out\n",
        status: 5,
    },
    Case {
        files: &["fun id x = x\n"],
        store: &[1],
        out: &[],
        written: "",
        error: "fault store f.sml\n",
        status: 5,
    },
];

/// The types of the library's text, its long identifiers behind bindings of the short ones, and what is refused of them.
const LIBRARY: &[Case] = &[
    Case {
        files: &[
            "val v1 = not\nval v2 = ignore\nval v3 = null\nval v4 = hd\nval v5 = tl\nval v6 = rev\nval v7 = length\nval v8 = map\nval v9 = app\nval v10 = foldl\nval v11 = foldr\nval v12 = isSome\nval v13 = valOf\nval v14 = getOpt\nval v15 = concat\nval v16 = explode\nval v17 = List.concat\nval v18 = List.last\nval v19 = List.nth\nval v20 = List.take\nval v21 = List.drop\nval v22 = List.filter\nval v23 = List.exists\nval v24 = List.all\nval v25 = List.find\nval v26 = List.tabulate\nval v27 = Option.map\nval v28 = Int.min\nval v29 = Int.max\nval v30 = Int.compare\nval v31 = Char.isDigit\nval v32 = Char.isAlpha\nval v33 = Char.isSpace\nval v34 = Int.toString\nval v35 = Int.fromString\nval v36 = String.tokens\nval w1 = op o\nval w2 = op @\nval w3 = op before\n",
        ],
        store: &[],
        out: &[],
        written: "val v1 : bool -> bool\nval v2 : 'a -> unit\nval v3 : 'a list -> bool\nval v4 : 'a list -> 'a\nval v5 : 'a list -> 'a list\nval v6 : 'a list -> 'a list\nval v7 : 'a list -> int\nval v8 : ('a -> 'b) -> 'a list -> 'b list\nval v9 : ('a -> 'b) -> 'a list -> unit\nval v10 : ('a * 'b -> 'b) -> 'b -> 'a list -> 'b\nval v11 : ('a * 'b -> 'b) -> 'b -> 'a list -> 'b\nval v12 : 'a option -> bool\nval v13 : 'a option -> 'a\nval v14 : 'a option * 'a -> 'a\nval v15 : string list -> string\nval v16 : string -> char list\nval v17 : 'a list list -> 'a list\nval v18 : 'a list -> 'a\nval v19 : 'a list * int -> 'a\nval v20 : 'a list * int -> 'a list\nval v21 : 'a list * int -> 'a list\nval v22 : ('a -> bool) -> 'a list -> 'a list\nval v23 : ('a -> bool) -> 'a list -> bool\nval v24 : ('a -> bool) -> 'a list -> bool\nval v25 : ('a -> bool) -> 'a list -> 'a option\nval v26 : int * (int -> 'a) -> 'a list\nval v27 : ('a -> 'b) -> 'a option -> 'b option\nval v28 : int * int -> int\nval v29 : int * int -> int\nval v30 : int * int -> order\nval v31 : char -> bool\nval v32 : char -> bool\nval v33 : char -> bool\nval v34 : int -> string\nval v35 : string -> int option\nval v36 : (char -> bool) -> string -> string list\nval w1 : ('a -> 'b) * ('c -> 'a) -> 'c -> 'b\nval w2 : 'a list * 'a list -> 'a list\nval w3 : 'a * unit -> 'a\n",
        error: "",
        status: 0,
    },
    Case {
        files: &[
            "fun map x = x + 1 fun rev x = [x] fun size x = x val op @ = 5 val hd = \"s\"\nval v1 = List.null\nval v2 = List.hd\nval v3 = List.tl\nval v4 = List.rev\nval v5 = List.length\nval v6 = List.map\nval v7 = List.app\nval v8 = List.foldl\nval v9 = List.foldr\nval v10 = List.@\nval v11 = Option.isSome\nval v12 = Option.valOf\nval v13 = Option.getOpt\nval v14 = String.size\nval v15 = String.str\nval v16 = String.concat\nval v17 = String.implode\nval v18 = String.explode\nval v19 = String.substring\nval v20 = String.^\nval v21 = Char.ord\nval v22 = Char.chr\nval v23 = Int.abs\nval v24 = TextIO.print\n",
        ],
        store: &[],
        out: &[],
        written: "val map : int -> int\nval rev : 'a -> 'a list\nval size : 'a -> 'a\nval @ : int\nval hd : string\nval v1 : 'a list -> bool\nval v2 : 'a list -> 'a\nval v3 : 'a list -> 'a list\nval v4 : 'a list -> 'a list\nval v5 : 'a list -> int\nval v6 : ('a -> 'b) -> 'a list -> 'b list\nval v7 : ('a -> 'b) -> 'a list -> unit\nval v8 : ('a * 'b -> 'b) -> 'b -> 'a list -> 'b\nval v9 : ('a * 'b -> 'b) -> 'b -> 'a list -> 'b\nval v10 : 'a list * 'a list -> 'a list\nval v11 : 'a option -> bool\nval v12 : 'a option -> 'a\nval v13 : 'a option * 'a -> 'a\nval v14 : string -> int\nval v15 : char -> string\nval v16 : string list -> string\nval v17 : char list -> string\nval v18 : string -> char list\nval v19 : string * int * int -> string\nval v20 : string * string -> string\nval v21 : char -> int\nval v22 : int -> char\nval v23 : int -> int\nval v24 : string -> unit\n",
        error: "",
        status: 0,
    },
    Case {
        files: &["val x = ref nil\nval y = map (fn f => f 1) [Int.toString] before x := [1]"],
        store: &[],
        out: &[],
        written: "val x : int list ref\nval y : string list\n",
        error: "",
        status: 0,
    },
    Case {
        files: &["val a = 1\nfun List.map f x = x\n"],
        store: &[],
        out: &[],
        written: "",
        error: "f.sml:2:5: refused 11 BadBinding\n",
        status: 2,
    },
    Case {
        files: &["val x = List.maps"],
        store: &[],
        out: &[],
        written: "",
        error: "f.sml:1:9: refused 10 Unbound\n",
        status: 2,
    },
    Case {
        files: &["fun List.foo x = x"],
        store: &[],
        out: &[],
        written: "",
        error: "f.sml:1:5: refused 11 BadBinding\n",
        status: 2,
    },
];
/// Plans of programs.
const PLANS: &[Case] = &[
    Case {
        files: &["val _ = print \"a\""],
        store: &[],
        out: &[],
        written: "factor 1\nspill 0\n",
        error: "",
        status: 0,
    },
    Case {
        files: &["fun f 0 = 0 | f n = (f (n - 1) handle Div => 0)\nval _ = f 100"],
        store: &[],
        out: &[],
        written: "label 0 fn 1:1:5 words 0 records 0 source 2\n\
                  label 1 caught 1:1:22 words 4 records 0 source 2\n\
                  label 2 popped 1:1:22 words 4 records 0 source 2\n\
                  label 3 ret 1:2:9 words 0 records 0 source 2\n\
                  factor 4\n\
                  spill 0\n",
        error: "",
        status: 0,
    },
    Case {
        files: &[
            "fun f x = x + 1\n",
            "fun g (a, b, c, d, e) = (a, b, c, d, e, f (f a))\n\
             val x = g (1, 2, 3, 4, 5) val y = g (f 1, 2, 3, 4, 5)",
        ],
        store: &[],
        out: &[],
        written: "label 0 fn 1:1:5 words 0 records 0 source 1\n\
                  label 1 fn 2:1:5 words 0 records 0 source 2\n\
                  label 2 ret 2:1:41 words 8 records 0 source 7\n\
                  label 3 ret 2:1:44 words 3 records 0 source 3\n\
                  label 4 ret 2:2:9 words 0 records 0 source 4\n\
                  label 5 ret 2:2:35 words 0 records 0 source 2\n\
                  label 6 ret 2:2:38 words 0 records 0 source 5\n\
                  factor 2\n\
                  spill 0\n",
        error: "",
        status: 0,
    },
    Case {
        files: &["fun f x = x\nval _ = f 1 + f true"],
        store: &[],
        out: &[],
        written: "",
        error: "f.sml:2:1: refused 12 BadType\n",
        status: 2,
    },
];

#[test]
fn the_library_is_in_scope(rt: HostRuntime) -> Result<(), Fail> {
    assert_eq!(rt; first_other(rt.alloc(), "types", LIBRARY)?, None);
    Ok(())
}

#[test]
fn types_of_programs(rt: HostRuntime) -> Result<(), Fail> {
    assert_eq!(rt; first_other(rt.alloc(), "types", TYPES)?, None);
    Ok(())
}

#[test]
fn plans_of_programs(rt: HostRuntime) -> Result<(), Fail> {
    assert_eq!(rt; first_other(rt.alloc(), "plan", PLANS)?, None);
    Ok(())
}
