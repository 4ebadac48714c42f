//! What is set for the rows of a file.

use anyhow::{Context, Result, bail, ensure};
use op_table::{Kind, OpFault, OpTable};
use pl_term::Text;
use prolog_reader::Quotes;
use std::alloc::Global;

/// The settings of the rows after them.
#[derive(Drop)]
pub struct Settings<'a> {
    alloc: Global,
    /// The kind of rows.
    pub kind: &'a str,
    /// The value of the flag `double_quotes`.
    pub quotes: Quotes,
    /// The operators.
    pub ops: OpTable,
}

impl<'a> Settings<'a> {
    /// No kind of rows, codes, and the operators at the start.
    pub fn new(alloc: Global) -> Result<Settings<'a>> {
        Ok(Settings {
            alloc,
            kind: "",
            quotes: Quotes::Codes,
            ops: OpTable::iso(alloc)?,
        })
    }

    /// Takes a line. `rows` with a kind begins anew with codes and the operators at the start.
    pub fn take_line(&mut self, line: &'a str) -> Result<()> {
        if line.is_empty() || line.starts_with('#') {
            return Ok(());
        }
        let (key, rest) = line.split_once(": ").context("a setting")?;
        match key {
            "rows" => {
                *self = Settings::new(self.alloc)?;
                self.kind = rest;
            }
            "double_quotes" => self.quotes = quotes_of(rest)?,
            "operator" => self.add_operator(rest)?,
            _ => bail!("no such setting"),
        }
        Ok(())
    }

    /// Adds an operator with the priority, the specifier and the name that a text has.
    fn add_operator(&mut self, text: &str) -> Result<()> {
        let fault = change(self.alloc, &mut self.ops, text)?;
        ensure!(fault.is_none(), "the operator is refused");
        Ok(())
    }
}

/// Changes a table by the priority, the specifier and the name that a text has, and answers why it is refused, if it is.
pub fn change(alloc: Global, ops: &mut OpTable, text: &str) -> Result<Option<OpFault>> {
    let (priority, rest) = text.split_once(' ').context("a priority")?;
    let (specifier, name) = rest.split_once(' ').context("a specifier")?;
    let name = Text::from_str(alloc, name)?;
    let priority = priority.parse::<u16>()?;
    Ok(ops.add(priority, kind_of(specifier)?, &name).err())
}

/// The value of the flag `double_quotes` with this name.
fn quotes_of(name: &str) -> Result<Quotes> {
    Ok(match name {
        "codes" => Quotes::Codes,
        "chars" => Quotes::Chars,
        "atom" => Quotes::Atom,
        _ => bail!("no value of the flag"),
    })
}

/// The specifier with this name.
fn kind_of(name: &str) -> Result<Kind> {
    Ok(match name {
        "xfx" => Kind::Xfx,
        "xfy" => Kind::Xfy,
        "yfx" => Kind::Yfx,
        "fy" => Kind::Fy,
        "fx" => Kind::Fx,
        "xf" => Kind::Xf,
        "yf" => Kind::Yf,
        _ => bail!("no specifier"),
    })
}
