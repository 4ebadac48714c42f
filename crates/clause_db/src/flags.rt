//! Prolog flags that can be changed (ISO 7.11).
ghost use Rattle.std.specs.Prelude.{◌≡◌, unwrap_or};
ghost use Rattle.pl_model.specs.Flags.{opening_flags, with_flag, quotes_of, unknown_of};
ghost use Rattle.clause_db.specs.Flags.{flags_as, unknown_as, flag_name, value_name};

use pl_model::grammar::Quotes;

/// A flag that can be changed: `double_quotes` (ISO 7.11.2.5) or `unknown` (ISO 7.11.2.4).
#[derive(Debug, Clone, Copy, PartialEq, Eq, Drop)]
pub enum Flag {
    DoubleQuotes,
    Unknown,
}

/// A value of such a flag: `codes`, `chars` and `atom` of `double_quotes`, `error` and `fail` of `unknown`.
#[derive(Debug, Clone, Copy, PartialEq, Eq, Drop)]
pub enum FlagValue {
    Codes,
    Chars,
    Atom,
    Error,
    Fail,
}

/// What the call of an unknown procedure does (ISO 7.11.2.4): it raises an error, or it fails.
#[derive(Debug, Clone, Copy, PartialEq, Eq, Drop)]
pub enum UnknownCall {
    Raises,
    Fails,
}

/// The flags that can be changed, with their values.
#[derive(Debug, Clone, Copy, PartialEq, Eq, Drop)]
pub struct Flags {
    pub double_quotes: Quotes,
    pub unknown: UnknownCall,
}

/// The flags at the start.
pub fn first_flags() -> Flags
    ensures { flags_as result ≡ opening_flags }
{
    Flags {
        double_quotes: Quotes::Codes,
        unknown: UnknownCall::Raises,
    }
}

/// The flags once a flag was given a value (ISO 8.17.1). A value that the flag cannot have changes nothing.
pub fn flags_with(flags: Flags, flag: Flag, value: FlagValue) -> Flags
    ensures { flags_as result ≡ with_flag (flag_name flag) (value_name value) (flags_as flags) }
{
    match flag {
        Flag::DoubleQuotes => Flags {
            double_quotes: quotes_by(value, flags.double_quotes),
            unknown: flags.unknown,
        },
        Flag::Unknown => Flags {
            double_quotes: flags.double_quotes,
            unknown: unknown_by(value, flags.unknown),
        },
    }
}

/// What a text in double quotes is read as by this value, or by the earlier one where it is no such value.
fn quotes_by(value: FlagValue, earlier: Quotes) -> Quotes
    ensures { result ≡ unwrap_or (quotes_of (value_name value)) earlier }
{
    match value {
        FlagValue::Codes => Quotes::Codes,
        FlagValue::Chars => Quotes::Chars,
        FlagValue::Atom => Quotes::Atom,
        FlagValue::Error => earlier,
        FlagValue::Fail => earlier,
    }
}

/// What an unknown procedure does by this value, or by the earlier one where it is no such value.
fn unknown_by(value: FlagValue, earlier: UnknownCall) -> UnknownCall
    ensures { unknown_as result ≡ unwrap_or (unknown_of (value_name value)) (unknown_as earlier) }
{
    match value {
        FlagValue::Error => UnknownCall::Raises,
        FlagValue::Fail => UnknownCall::Fails,
        FlagValue::Codes => earlier,
        FlagValue::Chars => earlier,
        FlagValue::Atom => earlier,
    }
}
