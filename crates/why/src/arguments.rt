//! What the arguments ask for.
ghost use Rattle.std.specs.Prelude.{◌≡◌, if◌then◌else◌, map, false, option_map, IfOk, IfSome};
ghost use Rattle.clap.specs.Words.{rule_of};
ghost use Rattle.why.specs.Arguments.{named_rule, AreTwoNumbers, IsSampleNamed, Asks, AsksForUsage};

use clap::{Arg, ArgAction, Command};
use draw_list::TrianglePlace;
use program_input::LineFault;
use std::alloc::Global;

/// How a report is written.
#[derive(Clone, Copy, Debug, PartialEq, Eq)]
pub enum Form {
    /// As a table.
    Table,
    /// As a JSON text.
    Json,
}

/// What the arguments ask for.
#[derive(Clone, Copy, Debug, PartialEq, Eq)]
pub enum Question {
    /// The history of a pixel's samples.
    Pixel(Asked),
    /// How many samples a triangle covers, changes and is shown by.
    Triangle(AskedTriangle),
}

/// Which triangle's samples are counted.
#[derive(Clone, Copy, Debug, PartialEq, Eq)]
pub struct AskedTriangle {
    /// Its draw, and its number in the draw.
    pub place: TrianglePlace,
    /// How the counts are written.
    pub form: Form,
}

/// Which history is written.
#[derive(Clone, Copy, Debug, PartialEq, Eq)]
pub struct Asked {
    /// The column of the pixel, from 0 at the left.
    pub x: u32,
    /// The row of the pixel, from 0 at the top.
    pub y: u32,
    /// The one sample of the pixel that is asked for, or none for all of them.
    pub sample: Option<u32>,
    /// Whether the triangles that do not cover a sample are listed too.
    pub all: bool,
    /// How the history is written.
    pub form: Form,
}

/// The two numbers in a text such as `X,Y`, or none if it is no such text.
fn two_numbers(text: &str) -> Option<(u32, u32)>
    ensures { IfSome result (λ numbers. AreTwoNumbers text.now numbers.0 numbers.1) }
{
    let (x, y) = text.split_once(',')?;
    match (x.parse::<u32>(), y.parse::<u32>()) {
        (Ok(x), Ok(y)) => Some((x, y)),
        _ => None,
    }
}

/// The number of the sample, if one is named, or none if the text is no number.
fn sample_named(text: Option<&str>) -> Option<Option<u32>>
    ensures { IfSome result (IsSampleNamed (option_map (λ t. t.now) text.entry)) }
{
    match text {
        None => Some(None),
        Some(text) => match text.parse::<u32>() {
            Ok(number) => Some(Some(number)),
            Err(_) => None,
        },
    }
}

/// The history that is asked for, of the pixel in this text, or none if a text is not what it should be.
fn pixel_asked(pixel: &str, sample: Option<&str>, all: bool, form: Form) -> Option<Asked>
    ensures place { IfSome result (λ asked. AreTwoNumbers pixel.now asked.x asked.y) }
    ensures sample { IfSome result (λ asked. IsSampleNamed (option_map (λ t. t.now) sample.entry) asked.sample) }
    ensures flags { IfSome result (λ asked. (asked.all ≡ all) × (asked.form ≡ form)) }
{
    let (x, y) = two_numbers(pixel)?;
    let sample = sample_named(sample)?;
    Some(Asked {
        x,
        y,
        sample,
        all,
        form,
    })
}

/// The triangle that is asked for, in a text `DRAW,NUMBER`, or none if it is no such text.
fn triangle_asked(triangle: &str, form: Form) -> Option<AskedTriangle>
    ensures place { IfSome result (λ asked. AreTwoNumbers triangle.now asked.place.draw asked.place.triangle) }
    ensures form { IfSome result (λ asked. asked.form ≡ form) }
{
    let (draw, number) = two_numbers(triangle)?;
    let place = TrianglePlace {
        draw: draw as usize,
        triangle: number as usize,
    };
    Some(AskedTriangle { place, form })
}

/// How a report is written, with the flag `--json` or without it.
fn form_of(json: bool) -> Form
    ensures { result ≡ (if json then Form.Json else Form.Table) }
{
    if json { Form::Json } else { Form::Table }
}

/// The option `--NAME`.
fn option(alloc: Global, name: &'static str, action: ArgAction) -> Arg<'static>
    ensures rule { rule_of result ≡ named_rule name.now action }
    ensures local { result.global ≡ false }
{
    Arg::new(alloc, name).long(name).action(action)
}

/// What the arguments ask for. The first argument is the program's name. Either a pixel or a triangle is asked for, and
/// of a triangle neither one sample nor all triangles.
pub fn read_arguments<'a>(alloc: Global, arguments: &'a [&'a str]) -> Result<Question, LineFault>
    ensures question { IfOk result (Asks (map (λ word. word.now) arguments.entry.now)) }
    // `Help` is returned only if clap asks for it.
    ensures help { result ≡ Err LineFault.Help → AsksForUsage (map (λ word. word.now) arguments.entry.now) }
{
    let pixel = Arg::new(alloc, "pixel").action(ArgAction::Set);
    let command = Command::new(alloc, "trirast_why")
        .arg(pixel)?
        .arg(option(alloc, "sample", ArgAction::Set))?
        .arg(option(alloc, "triangle", ArgAction::Set))?
        .arg(option(alloc, "all", ArgAction::SetTrue))?
        .arg(option(alloc, "json", ArgAction::SetTrue))?;
    let matches = command.try_get_matches_from(arguments)?;
    let sample = matches.get_str("sample");
    let all = matches.get_flag("all");
    let json = matches.get_flag("json");
    let pixel = matches.get_str("pixel");
    let triangle = matches.get_str("triangle");
    match (pixel, triangle) {
        (Some(pixel), None) => match pixel_asked(pixel, sample, all, form_of(json)) {
            Some(asked) => Ok(Question::Pixel(asked)),
            None => Err(LineFault::Refused),
        },
        (None, Some(triangle)) if sample.is_none() && !all => {
            match triangle_asked(triangle, form_of(json)) {
                Some(asked) => Ok(Question::Triangle(asked)),
                None => Err(LineFault::Refused),
            }
        }
        _ => Err(LineFault::Refused),
    }
}
