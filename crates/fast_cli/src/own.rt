//! Names of the words as texts of their own, which is all of a line that takes memory.
ghost use Rattle.std.specs.Prelude.{◌≡◌, IfOk, map, option_map};
ghost use Rattle.fast_cli.specs.Given.{options_in};

use crate::line::Options;
use crate::texts::Texts;
use crate::values::GivenOptions;
use fsim_base::Text;
use std::alloc::{AllocError, Global};

pub(crate) fn own_name(alloc: Global, name: &str) -> Result<Text, AllocError>
    ensures { IfOk result (λ own. own ≡ name.now) }
{
    Ok(Text::new(String::from_str(alloc, name)?))
}

pub(crate) fn own_names(alloc: Global, names: &[&str]) -> Result<Texts, AllocError>
    ensures { IfOk result (λ own. own ≡ map (λ name. name.now) names.now) }
{
    let mut list = Vec::new(alloc);
    for name in names {
        list.push(own_name(alloc, name)?)?;
    }
    Ok(Texts::new(list))
}

pub(crate) fn own_name_if_given(
    alloc: Global,
    name: Option<&str>,
) -> Result<Option<Text>, AllocError>
    ensures { IfOk result (λ own. own ≡ option_map (λ text. text.now) name.entry) }
{
    match name {
        Some(name) => Ok(Some(own_name(alloc, name)?)),
        None => Ok(None),
    }
}

pub(crate) fn own_options(alloc: Global, given: &GivenOptions<'_>) -> Result<Options, AllocError>
    ensures { IfOk result (λ own. own ≡ options_in given.now) }
{
    let input = own_name_if_given(alloc, given.input)?;
    Ok(Options {
        ring: given.ring,
        cycles: given.cycles,
        output: given.output,
        input,
        exit_code: given.exit_code,
    })
}
