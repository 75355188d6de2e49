//! A struct's leaves, its cells, and back; the leaves of carriers.

use lt_core::{Cells, Fields, Layout, List, Memory, Settings, Value};
use lt_physical::{carrier_layout, flatten, unflatten, version_layout};
use lt_schema::{Catalogue, SchemaVersion};
use lt_schema_json::read_version;
use std::alloc::Global;
use std::fmt::Debug;
use std::test::Fail;

/// A version with a struct of a number and a text in column 1, and an enum in column 2.
const FIRST: &str =
    r#"{"table":"t","number":1,"version":1,"key":[["id","int64"]],"columns":[{"number":1,"name":"p","kind":{"struct":[[1,"x","int64"],[2,"y","text"]]}},{"number":2,"name":"q","kind":{"enum":[]}}]}"#;

/// The next version: the struct has a third field, and a number stands in place of the enum.
const NEXT: &str =
    r#"{"table":"t","number":1,"version":2,"key":[["id","int64"]],"columns":[{"number":1,"name":"p","kind":{"struct":[[1,"x","int64"],[2,"y","text"],[3,"z","bool"]]}},{"number":3,"name":"r","kind":"int64"}]}"#;

fn version(alloc: Global, text: &str) -> Result<SchemaVersion, Memory> {
    match read_version(alloc, text.as_bytes()) {
        Ok(version) => Ok(version),
        Err(_) => Err(Memory),
    }
}

fn put<T: Debug>(alloc: Global, told: &mut String, shown: &T) -> Result<(), Memory> {
    let line = format!(in alloc; "{shown:?}\n")?;
    told.push_str(line.as_str())?;
    Ok(())
}

/// The column and rank of each leaf.
fn put_leaves(alloc: Global, told: &mut String, layout: &Layout) -> Result<(), Memory> {
    for leaf in layout.as_slice() {
        let leaf = format!(in alloc; "{} {:?},", leaf.column, leaf.rank)?;
        told.push_str(leaf.as_str())?;
    }
    told.push_str("\n")?;
    Ok(())
}

/// The cells of settings, and the values of columns 0 to 3 in them.
fn put_cells(
    alloc: Global,
    told: &mut String,
    layout: &Layout,
    set: &Settings,
) -> Result<(), Memory> {
    let cells = flatten(alloc, layout, set)?;
    put(alloc, told, &cells)?;
    for column in 0..4 {
        put_column(alloc, told, layout, &cells, column)?;
    }
    Ok(())
}

fn put_column(
    alloc: Global,
    told: &mut String,
    layout: &Layout,
    cells: &Cells,
    column: u16,
) -> Result<(), Memory> {
    put(alloc, told, &unflatten(alloc, layout, cells, column)?)
}

/// Column 1 is a struct whose first field is 5.
fn half(alloc: Global) -> Result<Settings, Memory> {
    let mut fields = Fields::new(alloc);
    fields.push((1, Value::Int(5)))?;
    let mut set = List::new(alloc);
    set.push((1, Value::Struct(fields)))?;
    Ok(set)
}

/// Column 1 is Null, and column 2 is 3.
fn other(alloc: Global) -> Result<Settings, Memory> {
    let mut set = List::new(alloc);
    set.push((1, Value::Null))?;
    set.push((2, Value::Int(3)))?;
    Ok(set)
}

/// The leaves of the first version; the cells and columns of two rows.
const STRUCT: &str = "\
1 Bool,1 Int64,1 Text,2 Int32,
List { inner: [Bool(true), Int(5), Null, Unset] }
None
Some(Struct(List { inner: [(1, Int(5)), (2, Null)] }))
None
None
List { inner: [Bool(false), Null, Null, Int(3)] }
None
Some(Null)
Some(Int(3))
None
";

fn told_struct(alloc: Global) -> Result<String, Memory> {
    let mut told = String::new(alloc);
    let layout = version_layout(alloc, &version(alloc, FIRST)?)?;
    put_leaves(alloc, &mut told, &layout)?;
    put_cells(alloc, &mut told, &layout, &half(alloc)?)?;
    put_cells(alloc, &mut told, &layout, &other(alloc)?)?;
    Ok(told)
}

#[test]
fn a_struct_is_its_leaves(rt: HostRuntime) -> Result<(), Fail> {
    let told = told_struct(rt.alloc())?;
    assert_eq!(rt; told.as_str(), STRUCT);
    Ok(())
}

/// Of no version, of the first, of both, and of both where the first is retired: that it went so, and the leaves.
const CARRIERS: &str = "\
true

true
1 Bool,1 Int64,1 Text,2 Int32,
true
1 Bool,1 Int64,1 Text,1 Bool,2 Int32,3 Int64,
true
1 Bool,1 Int64,1 Text,1 Bool,3 Int64,
";

fn is_added(alloc: Global, catalogue: &mut Catalogue, text: &str) -> Result<bool, Memory> {
    Ok(catalogue.add(version(alloc, text)?).is_ok())
}

fn goes_on(alloc: Global, catalogue: &mut Catalogue, step: u8) -> Result<bool, Memory> {
    match step {
        0 => Ok(true),
        1 => is_added(alloc, catalogue, FIRST),
        2 => is_added(alloc, catalogue, NEXT),
        _ => Ok(catalogue.retire(1, 1).is_ok()),
    }
}

fn put_step(
    alloc: Global,
    told: &mut String,
    catalogue: &mut Catalogue,
    step: u8,
) -> Result<(), Memory> {
    put(alloc, told, &goes_on(alloc, catalogue, step)?)?;
    put_leaves(alloc, told, &carrier_layout(alloc, catalogue, 1)?)
}

fn told_carriers(alloc: Global) -> Result<String, Memory> {
    let mut told = String::new(alloc);
    let mut catalogue = Catalogue::new(alloc);
    for step in 0..4 {
        put_step(alloc, &mut told, &mut catalogue, step)?;
    }
    Ok(told)
}

#[test]
fn carriers_have_the_leaves_of_live_columns(rt: HostRuntime) -> Result<(), Fail> {
    let told = told_carriers(rt.alloc())?;
    assert_eq!(rt; told.as_str(), CARRIERS);
    Ok(())
}
