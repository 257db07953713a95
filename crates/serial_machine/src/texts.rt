//! What commands print.
ghost use Rattle.std.specs.Prelude.{◌≡◌, ◌++◌, ◌<◌, ◌^◌, length, IfOk, OnOk};
ghost use Rattle.std.specs.Str.{IsUtf8};
ghost use Rattle.serial_model.specs.Serial.{value_text};
ghost use Rattle.serial_model.specs.Text.{info_text, wrong_text};
ghost use Rattle.serial_machine.specs.Values.{seen_value, values_of};
ghost use Rattle.serial_machine.specs.Ready.{IsValue, IsShort};

use crate::values::{Value, Values};
use printed_text::{info_text, matrix_text, pivots_text, wrong_text};
use run_data::IndexList;
use std::alloc::{AllocError, Global};

// A name as text.
fn text_of(name: &[u8]) -> &str
    requires { IsUtf8 name.now }
    ensures { result.now ≡ name.now }
{
    match str::from_utf8(name) {
        Ok(text) => text,
        Err(_) => unreachable!(),
    }
}

// A list of the same numbers.
fn index_list(alloc: Global, numbers: &[u32]) -> Result<IndexList, AllocError>
    requires { length numbers.now < 2 ^ 32 }
    ensures { IfOk result (λ l. l ≡ numbers.now) }
{
    let mut list = IndexList::new(alloc);
    for i in 0..numbers.len() {
        list.push(numbers[i])?;
    }
    Ok(list)
}

// The text of a value.
fn text_of_value(alloc: Global, name: &str, value: &Value) -> Result<Vec<u8>, AllocError>
    requires { IsShort (seen_value value.now) }
    ensures { IfOk result (λ t. t.items ≡ value_text name.now (Some (seen_value value.now))) }
{
    match value {
        Value::Whole(m) => matrix_text(alloc, name, m),
        Value::Rows(rows) => pivots_text(alloc, name, &index_list(alloc, rows)?),
    }
}

/// Prints the value of a name.
pub fn print_value(
    alloc: Global,
    values: &Values,
    name: &[u8],
    out: &mut Vec<u8>,
) -> Result<(), AllocError>
    requires named { IsUtf8 name.now }
    requires value { IsValue (values_of values.now.entries.items name.now) }
    ensures { OnOk result (out.new.items ≡ out.old.items ++ value_text name.now (values_of values.now.entries.items name.now)) }
{
    let Some(value) = values.get(name) else {
        unreachable!();
    };
    let text = text_of_value(alloc, text_of(name), value)?;
    out.extend_from_slice(&text)
}

/// Prints the INFO of a command that changed the matrix of a name.
pub fn print_info(
    alloc: Global,
    command: &str,
    name: &[u8],
    info: u32,
    out: &mut Vec<u8>,
) -> Result<(), AllocError>
    requires { IsUtf8 name.now }
    ensures { OnOk result (out.new.items ≡ out.old.items ++ info_text command.now name.now info) }
{
    let text = info_text(alloc, command, text_of(name), info)?;
    out.extend_from_slice(&text)
}

/// Prints how many words of the matrix of a name were found wrong.
pub fn print_wrong(
    alloc: Global,
    name: &[u8],
    count: usize,
    out: &mut Vec<u8>,
) -> Result<(), AllocError>
    requires { IsUtf8 name.now }
    ensures { OnOk result (out.new.items ≡ out.old.items ++ wrong_text name.now count) }
{
    let text = wrong_text(alloc, text_of(name), count)?;
    out.extend_from_slice(&text)
}
