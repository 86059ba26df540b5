//! The names, numbers and options that a parse found.
ghost use Rattle.std.specs.Prelude.{◌≡◌, ◌≤◌, ◌+◌, ◌&&◌, length, IfSome, map, option_map};
ghost use Rattle.std.specs.List.{list_all};
ghost use Rattle.fast_cli.specs.Command.{values_of};
ghost use Rattle.fast_cli.specs.Given.{options_in};
ghost use Rattle.fast_cli.specs.Number.{is_between};
ghost use Rattle.fast_cli.specs.Ranges.{HasRanges, IsFrom};
ghost use Rattle.fast_cli.specs.Values.{default_options, first_at, flag_at, given_number_at};
ghost use Rattle.fast_cli.specs.Values.{is_name, last_cycle_at};
ghost use Rattle.fast_cli.specs.Values.{name_at, name_if_given, name_in, names_at, number_at};
ghost use Rattle.fast_cli.specs.Values.{options_at, pipeline_at, pipeline_in};

use crate::line::{Options, Pipeline};
use crate::number::number_in;
use clap::ArgMatches;

fn value_at<'a>(matches: &ArgMatches<'a>, id: &str) -> Option<&'a str>
    ensures { option_map (λ s. s.now) result ≡ first_at id.now (values_of matches.now) }
{
    matches.get_str(id)
}

fn name_in<'a>(text: &'a str) -> Option<&'a str>
    ensures { option_map (λ s. s.now) result ≡ name_in text.entry.now }
{
    if text.is_empty() {
        return None;
    }
    Some(text)
}

/// The name that must be there.
#[tactic(auto, unfolding(crate::specs::Values::name_at))]
pub(crate) fn name_at<'a>(matches: &ArgMatches<'a>, id: &str) -> Option<&'a str>
    ensures { option_map (λ s. s.now) result ≡ name_at id.now (values_of matches.now) }
{
    name_in(value_at(matches, id)?)
}

fn values_at<'m, 'a>(matches: &'m ArgMatches<'a>, id: &str) -> Option<&'m [&'a str]>
    ensures { option_map (λ s. map (λ t. t.now) s.now) result ≡ values_of matches.now id.now }
{
    matches.get_strs(id)
}

fn have_bytes(texts: &[&str]) -> bool
    ensures { result ≡ list_all (λ t. is_name t.now) texts.now }
{
    texts.iter().all(|text| !text.is_empty())
}

fn are_names(texts: &[&str]) -> bool
    ensures { result ≡ (is_between 1 64 (length texts.now)
        && list_all (λ t. is_name t.now) texts.now) }
{
    if texts.is_empty() || 64 < texts.len() {
        return false;
    }
    have_bytes(texts)
}

/// From 1 to 64 names.
#[tactic(auto, using(crate::proofs::Names::names_in_behind), unfolding(crate::specs::Values::names_at))]
pub(crate) fn names_at<'m, 'a>(matches: &'m ArgMatches<'a>, id: &str) -> Option<&'m [&'a str]>
    ensures names { option_map (λ s. map (λ t. t.now) s.now) result
        ≡ names_at id.now (values_of matches.now) }
    ensures count { IfSome result (λ s. IsFrom 1 64 (length s.now)) }
{
    match values_at(matches, id) {
        Some(texts) if are_names(texts) => Some(texts),
        _ => None,
    }
}

/// The number that must be there, from `least` to `most`.
#[tactic(auto, unfolding(crate::specs::Values::given_number_at))]
pub(crate) fn given_number_at(
    matches: &ArgMatches<'_>,
    id: &str,
    least: u64,
    most: u64,
) -> Option<u64>
    ensures { result ≡ given_number_at id.now least most (values_of matches.now) }
{
    number_in(value_at(matches, id)?, least, most)
}

/// The number of an option, or its default where the words leave it out.
#[tactic(auto, unfolding(crate::specs::Values::number_at))]
pub(crate) fn number_at(
    matches: &ArgMatches<'_>,
    id: &str,
    least: u64,
    most: u64,
    default: u64,
) -> Option<u64>
    requires low { least ≤ default }
    requires high { default ≤ most }
    ensures value { result ≡ number_at id.now least most default (values_of matches.now) }
    ensures least { IfSome result (λ n. least ≤ n) }
    ensures most { IfSome result (λ n. n ≤ most) }
{
    match value_at(matches, id) {
        Some(text) => number_in(text, least, most),
        None => Some(default),
    }
}

/// The name that may be there.
#[tactic(auto, unfolding(crate::specs::Values::name_if_given))]
pub(crate) fn name_if_given<'a>(matches: &ArgMatches<'a>, id: &str) -> Option<Option<&'a str>>
    ensures { option_map (λ name. option_map (λ s. s.now) name) result
        ≡ name_if_given id.now (values_of matches.now) }
{
    match value_at(matches, id) {
        Some(text) => Some(Some(name_in(text)?)),
        None => Some(None),
    }
}

/// The cycle that a trace goes up to: 10,000 after its first where the words leave it out.
#[tactic(auto, unfolding(crate::specs::Values::last_cycle_at))]
pub(crate) fn last_cycle_at(matches: &ArgMatches<'_>, from: u64) -> Option<u64>
    requires from { from ≤ 1099511627776 }
    ensures value { result ≡ last_cycle_at from (values_of matches.now) }
    ensures most { IfSome result (λ n. n ≤ 1099511637776) }
{
    match value_at(matches, "to") {
        Some(text) => number_in(text, 0, 1_099_511_627_776),
        None => Some(from + 10_000),
    }
}

/// Whether the flag is there.
fn flag_at(matches: &ArgMatches<'_>, id: &str) -> bool
    ensures { result ≡ flag_at id.now (values_of matches.now) }
{
    values_at(matches, id).is_some()
}

fn pipeline_in(text: &str) -> Option<Pipeline>
    ensures { result ≡ pipeline_in text.now }
{
    match text {
        "window" => Some(Pipeline::Window),
        "inorder" => Some(Pipeline::Inorder),
        _ => None,
    }
}

/// Which machine plays the run.
#[tactic(auto, unfolding(crate::specs::Values::pipeline_at))]
pub(crate) fn pipeline_at(matches: &ArgMatches<'_>) -> Option<Pipeline>
    ensures { result ≡ pipeline_at (values_of matches.now) }
{
    match value_at(matches, "pipeline") {
        Some(text) => pipeline_in(text),
        None => Some(Pipeline::Window),
    }
}

/// The options, whose name is still that of the words.
#[derive(Drop)]
pub(crate) struct GivenOptions<'a> {
    pub ring: u32,
    pub cycles: u64,
    pub output: u32,
    pub input: Option<&'a str>,
    pub exit_code: bool,
}

/// The options of a line that gives none.
#[tactic(auto, unfolding(crate::specs::Values::default_options))]
pub fn default_options() -> Options
    ensures options { result ≡ default_options }
    ensures ranges { HasRanges result }
{
    Options {
        ring: 64,
        cycles: 10_000_000,
        output: 16_777_216,
        input: None,
        exit_code: false,
    }
}

/// The options, each with its default where the words leave it out.
#[tactic(auto, unfolding(crate::specs::Values::options_at))]
pub(crate) fn options_at<'a>(matches: &ArgMatches<'a>) -> Option<GivenOptions<'a>>
    ensures options { option_map options_in result ≡ options_at (values_of matches.now) }
    ensures ranges { IfSome result (λ given. HasRanges (options_in given)) }
{
    let defaults = default_options();
    let ring = number_at(matches, "ring", 1, 65_536, u64::from(defaults.ring))?;
    let cycles = number_at(matches, "cycles", 1, 1_099_511_627_776, defaults.cycles)?;
    let output = number_at(matches, "output", 0, 16_777_216, u64::from(defaults.output))?;
    let input = name_if_given(matches, "input")?;
    Some(GivenOptions {
        ring: ring as u32,
        cycles,
        output: output as u32,
        input,
        exit_code: flag_at(matches, "exit-code"),
    })
}
