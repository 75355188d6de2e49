//! The calls of one catalogue, and their answers.

/// A version is spelled as its table, number, version, key columns in brackets, and columns: each has a number, a name,
/// a kind, perhaps a default behind `=`, and ends with `;`. A struct's fields stand in braces, an enum's numbers and
/// names in angles, the fields of a struct's value in parentheses. A version that is got is told as JSON.
pub const SCRIPT: &str = r#"
numbers: the table, the version, the columns, and in a column its kind from the outside in
add t 0 0 [ id int64 ] -> number 0 is out of order or range
add t 65536 0 [ id int64 ] 0 a int64 ; -> number 65536 is out of order or range
add t 1 0 [ id int64 ] 3 a int64 ; 3 b int64 ; -> number 0 is out of order or range
add t 1 1 [ id int64 ] 0 a < 5 c 5 d > ; -> number 0 is out of order or range
add t 1 1 [ id int64 ] 7 a int64 ; 7 b text ; -> number 7 is out of order or range
add t 1 1 [ id int64 ] 7 a { 0 x int64 } ; 6 b text ; -> number 0 is out of order or range
add t 1 1 [ id int64 ] 7 a int64 ; 6 b { 0 x int64 } ; -> number 6 is out of order or range
add t 1 1 [ id int64 ] 7 a { 2 x { 9 y int64 8 z int64 } 5 v int64 4 w int64 } ; -> number 4 is out of order or range
add t 1 1 [ id int64 ] 7 a { 2 x { 9 y int64 8 z int64 } 3 w < 5 c 5 d > } ; -> number 8 is out of order or range
add t 1 1 [ id int64 ] 7 a { 2 x { 9 y int64 } 3 w < 5 c 5 d > } ; 6 b text ; -> number 5 is out of order or range
add t 1 1 [ id int64 ] 7 a < 5 new -3 paid -4 late > ; 6 b text ; -> number -3 is out of order or range
names: the table, the key columns, the columns, and in a column its kind from the outside in
add 1t 1 1 [ _id int64 ] 0 a int64 ; -> number 0 is out of order or range
add 1t 1 1 [ _id int64 ] -> 1t is no name
add t 1 1 [ id int64 _key text ] 1 a-b int64 ; -> _key is no name
add t 1 1 [ id int64 ] 1 a-b { 1 x. int64 } ; -> a-b is no name
add t 1 1 [ id int64 ] 1 a { 1 x { 1 y. int64 } 2 z. int64 } ; 2 b. text ; -> z. is no name
add t 1 1 [ id int64 ] 1 a { 1 x { 1 y. int64 } 2 z < 1 w. > } ; 2 b. text ; -> y. is no name
add t 1 1 [ id int64 id text ] 1 a < 0 new 1 paid! > ; 2 b. text ; -> paid! is no name
add t 1 1 [ id int64 ] 1 abcdefghijklmnopqrstuvwxyz_ABCDEFGHIJKLMNOPQRSTUVWXYZ_0123456789ab int64 ; -> abcdefghijklmnopqrstuvwxyz_ABCDEFGHIJKLMNOPQRSTUVWXYZ_0123456789ab is no name
names that stand twice
add t 1 1 [ id int64 id text ] 1 a { 1 x int64 2 x text } ; -> the name id stands twice
add t 1 1 [ id int64 ] 1 a int64 ; 2 id int64 ; 3 a text ; -> the name id stands twice
add t 1 1 [ id int64 ] 1 a int64 ; 2 b int64 ; 3 b text ; 4 a text ; -> the name b stands twice
add t 1 1 [ id int64 ] 1 a { 1 x { 1 y int64 2 y int64 } 2 z int64 3 z int64 } ; 2 a text ; -> the name z stands twice
add t 1 1 [ id int64 ] 1 a { 1 x { 1 y int64 2 y int64 } 2 z < 0 w 1 w > } ; -> the name y stands twice
add t 1 1 [ id int64 ] 1 a { 1 x < 0 new 1 new > } ; 2 p { 1 x { 1 x { 1 x { 1 x { 1 x int64 } } } } } ; -> the name new stands twice
depth, and defaults
add t 1 1 [ id int64 ] 1 a bool = 1 ; 2 p { 1 x { 1 x { 1 x { 1 x { 1 x int64 } } } } } ; -> a struct is nested too deep
add t 1 1 [ id int64 ] 1 a bool ; 2 b int32 = 2147483648 ; 3 c int32 = "x ; -> the default of column 2 is not of its kind
add t 1 2 [ id int64 ] 1 a < 0 new > = -2147483649 ; -> the default of column 1 is not of its kind
add t 1 1 [ id int64 ] 1 p { 1 x int64 2 y text } = ( 1 5 3 null ) ; -> the default of column 1 is not of its kind
add t 1 1 [ id int64 ] 1 p { 1 x int64 2 y text } = ( 1 5 ) ; -> the default of column 1 is not of its kind
add t 1 1 [ id int64 ] 1 p { 1 x { 1 y bool } } = ( 1 ( 1 7 ) ) ; -> the default of column 1 is not of its kind
add t 1 1 [ id int64 ] 1 p { 1 x int64 } = 5 ; -> the default of column 1 is not of its kind
tables, versions and keys
add t 1 2 [ ] -> version 1 is next
add t 1 1 [ ] -> the key columns are not those of the table
add t 1 1 [ a text b text c text d text e text f text g text h text i text ] -> the key columns are not those of the table
add t 1 1 [ id int64 ] 1 a int64 ; 2 b text ; -> Ok
add t 2 5 [ id int64 ] -> table 2 has another name, or the name another number
add u 1 5 [ id int64 ] -> table 1 has another name, or the name another number
add t 1 1 [ id int64 ] 1 a int64 ; 2 b text ; -> version 2 is next
add t 1 3 [ id text ] -> version 2 is next
add t 1 2 [ id text ] 1 a { 1 x int64 } ; -> the key columns are not those of the table
add t 1 2 [ key int64 ] -> the key columns are not those of the table
add t 1 2 [ id int64 key int64 ] -> the key columns are not those of the table
columns against the older versions: a column added, and others dropped
add t 1 2 [ id int64 ] 1 a { 1 x int64 } ; 2 b text = "x ; -> column 1 changes between struct and primitive
add t 1 2 [ id int64 ] 1 a int64 = null ; 2 b text = "x ; -> column 1 has its default already
add t 1 2 [ id int64 ] 1 a int64 ; 2 b text ; 3 c int64 = 9 ; -> Ok
column 1 3 -> true
fallback 1 2 -> Some(Null)
fallback 1 3 -> Some(Int(9))
carrier 1 3 -> Some(Plain(Int64))
add t 1 3 [ id int64 ] 1 a text ; 3 c int32 ; 4 p { 1 x int64 3 z < 0 new > } = ( 1 null 3 -7 ) ; -> Ok
column 1 2 -> true
retire 9 1 -> no such table
retire 1 0 -> no such version
retire 1 4 -> no such version
retire 1 3 -> the latest version stays
retire 1 2 -> Ok
retire 1 1 -> Ok
retire 1 1 -> the version is retired
column 1 2 -> false
add t 1 4 [ id int64 ] 1 a { 1 x int64 } ; 2 b text ; -> column 2 was dropped
add t 1 4 [ id int64 ] 1 a text ; 4 p { 1 x { 1 y int64 } } ; -> column 4 changes between struct and primitive
add t 1 4 [ id int64 ] 1 a int32 ; 4 p { 2 y { 1 v bytes } 3 state int64 } ; 5 d < 0 no > = 8 ; -> Ok
add t 1 5 [ id int64 ] 4 p { 1 x { 1 y int64 } 2 y { 1 v bool } } ; -> column 4 changes between struct and primitive
look-ups
get 1 1 -> {"columns":[{"kind":"int64","name":"a","number":1},{"kind":"text","name":"b","number":2}],"key":[["id","int64"]],"number":1,"table":"t","version":1}
get 1 4 -> {"columns":[{"kind":"int32","name":"a","number":1},{"kind":{"struct":[[2,"y",{"struct":[[1,"v","bytes"]]}],[3,"state","int64"]]},"name":"p","number":4},{"default":8,"kind":{"enum":[[0,"no"]]},"name":"d","number":5}],"key":[["id","int64"]],"number":1,"table":"t","version":4}
get 1 5 -> None
get 9 1 -> None
live 1 1 -> false
live 1 3 -> true
live 1 5 -> false
column 1 3 -> true
column 1 9 -> false
carrier 1 1 -> Some(Plain(Text))
carrier 1 2 -> Some(Plain(Text))
carrier 1 4 -> Some(Struct(List { inner: [(1, Text { inner: "x" }, Plain(Int64)), (2, Text { inner: "y" }, Struct(List { inner: [(1, Text { inner: "v" }, Plain(Bytes))] })), (3, Text { inner: "state" }, Plain(Int64))] }))
carrier 1 5 -> Some(Plain(Int32))
carrier 1 9 -> None
fallback 1 4 -> Some(Struct(List { inner: [(1, Null), (3, Int(-7))] }))
fallback 1 5 -> Some(Int(8))
fallback 1 9 -> None
add orders 7 1 [ region text id int64 ] 1 p { 1 x { 1 x { 1 x { 1 x int64 } } } } ; -> Ok
add a 3 1 [ id int64 ] -> Ok
table t -> Some(1)
table a -> Some(3)
table orders -> Some(7)
table order -> None
copy -> true
"#;

/// The same of the limits. `wide` adds a version with columns from one number to another, and beside them a struct with such
/// fields and an enum of so many names; `tables` and `versions` add those with such numbers, and tell whether all were added.
pub const LIMITS: &str = "
wide 1 1 1 254 1 768 256 -> Ok
wide 2 1 1 255 1 0 256 -> 257 are too many
wide 2 1 1 254 1 769 257 -> 1025 are too many
wide 2 1 1 254 1 768 257 -> 257 are too many
wide 2 1 1 300 1 1024 257 -> 302 are too many
wide 2 1 1 200 1 700 1 -> Ok
wide 2 2 200 254 700 768 1 -> Ok
wide 2 3 200 255 700 769 1 -> 257 are too many
wide 2 3 200 254 769 769 1 -> 1025 are too many
wide 2 3 200 254 768 768 1 -> Ok
tables 3 64 -> true
add t65 65 1 [ id int64 ] -> 65 are too many
versions 2 256 -> true
add t9 9 257 [ id int64 ] -> 257 are too many
";
