ghost use Rattle.std.specs.Prelude.{◌≡◌, ◌≢◌, ◌≤◌, ◌∷◌, ℕ, map, string_bytes, codes, IfSome, IfNone, MatchOption};
ghost use Rattle.std.specs.Fmt.{decimal};
ghost use Rattle.std.specs.List.{list_all};
ghost use Rattle.std.specs.Option.{option_map};
ghost use Rattle.build_command.specs.Words.{AreNoMaking, HasMakingWorkers, IsMakingForm, told_making};
ghost use Rattle.openram_cli.specs.Inspection.{check_form, nets_form, compare_form, devices_form, kit_form};
ghost use Rattle.openram_cli.specs.CommandWords.{HasWorkers, IsCommandIn, told_inspection, told_question};
ghost use Rattle.sram_plan.specs.Config.{is_file_text, is_printable_byte};

use build_command::{Making, RomFiles};
use command_steps::workers_in;
use itoa::Buffer;

/// The words that name a structure of a layout: the files of the technology and of the layout, and the structure's
/// name.
#[derive(Clone, Copy)]
pub struct LayoutWords<'a> {
    pub tech: &'a str,
    pub gds: &'a str,
    pub top: &'a str,
}

/// What the words ask.
#[derive(Clone, Copy)]
pub enum Command<'a> {
    /// A memory is built: `build`, `demo` or `rom`.
    Make(Making<'a>),
    /// A question about files is answered, and nothing is built.
    Answer(Question<'a>),
}

/// What is asked of files, and how many workers may do it: 1 to 64.
#[derive(Clone, Copy)]
pub struct Question<'a> {
    pub asked: Inspection<'a>,
    pub workers: u8,
}

/// What is asked of files.
#[derive(Clone, Copy)]
pub enum Inspection<'a> {
    /// The report of the rules: `check TECH GDS TOP WORKERS`.
    Check(LayoutWords<'a>),
    /// The labels with their nets: `nets TECH GDS TOP`.
    Nets(LayoutWords<'a>),
    /// The first difference from a netlist: `compare TECH GDS SP TOP`.
    Compare {
        layout: LayoutWords<'a>,
        netlist: &'a str,
    },
    /// The first difference of transistors in a technology's leaf cells: `devices TECH`.
    Devices(&'a str),
    /// The first weakness of a kit: `kit TECH WORKERS`.
    Kit(&'a str),
}

/// `build CONFIG WORKERS`, if the words after `build` are that.
fn build_in(rest: &[String]) -> Option<Making<'_>>
    ensures some { IfSome result (λ making. IsMakingForm (codes "build" ∷ map string_bytes rest.now)
        (told_making making)) }
    ensures none { IfNone result (AreNoMaking (codes "build" ∷ map string_bytes rest.now)) }
    ensures workers { IfSome result HasMakingWorkers }
{
    let [config, workers] = rest else {
        return None;
    };
    let workers = workers_in(workers)?;
    let config = config.as_str();
    let asked = build_command::BuildKind::Build { config };
    Some(Making { asked, workers })
}

/// `demo N WORKERS`, if the words after `demo` are that.
fn demo_in(rest: &[String]) -> Option<Making<'_>>
    ensures some { IfSome result (λ making. IsMakingForm (codes "demo" ∷ map string_bytes rest.now)
        (told_making making)) }
    ensures none { IfNone result (AreNoMaking (codes "demo" ∷ map string_bytes rest.now)) }
    ensures workers { IfSome result HasMakingWorkers }
{
    let [number, workers] = rest else {
        return None;
    };
    let workers = workers_in(workers)?;
    let number = demo_number(number.as_str())?;
    let asked = build_command::BuildKind::Demo { number };
    Some(Making { asked, workers })
}

/// The number that the word is, if it is one: 0 to 65535 in decimal digits, without a leading zero.
fn demo_number(word: &str) -> Option<u16>
    ensures { MatchOption result ((n : ℕ) → n ≤ 65535 → word.now ≢ decimal n) (λ n. word.now ≡ decimal n) }
{
    let Ok(number) = word.parse::<u16>() else {
        return None;
    };
    // `parse` also takes a plus sign and leading zeros; a word with these is no form.
    let mut buffer = Buffer::new();
    if buffer.format(number) == word {
        return Some(number);
    }
    None
}

/// `rom CONFIG DATA WORKERS`, if the words after `rom` are that.
fn rom_in(rest: &[String]) -> Option<Making<'_>>
    ensures some { IfSome result (λ making. IsMakingForm (codes "rom" ∷ map string_bytes rest.now)
        (told_making making)) }
    ensures none { IfNone result (AreNoMaking (codes "rom" ∷ map string_bytes rest.now)) }
    ensures workers { IfSome result HasMakingWorkers }
{
    let [config, content, workers] = rest else {
        return None;
    };
    let workers = workers_in(workers)?;
    let files = RomFiles {
        config: config.as_str(),
        content: content.as_str(),
    };
    let asked = build_command::BuildKind::Rom(files);
    Some(Making { asked, workers })
}

/// A question that one worker answers.
fn alone(asked: Inspection<'_>) -> Question<'_>
    ensures asked { told_question result ≡ told_inspection asked.entry }
    ensures workers { HasWorkers result }
{
    Question { asked, workers: 1 }
}

/// `check TECH GDS TOP WORKERS`, if the words after `check` are that.
fn check_in(rest: &[String]) -> Option<Question<'_>>
    ensures words { option_map told_question result ≡ check_form (codes "check" ∷ map string_bytes rest.now) }
    ensures workers { IfSome result HasWorkers }
{
    let [tech, gds, top, workers] = rest else {
        return None;
    };
    let workers = workers_in(workers)?;
    let asked = Inspection::Check(LayoutWords {
        tech: tech.as_str(),
        gds: gds.as_str(),
        top: top.as_str(),
    });
    Some(Question { asked, workers })
}

/// `nets TECH GDS TOP`, if the words after `nets` are that.
fn nets_in(rest: &[String]) -> Option<Question<'_>>
    ensures words { option_map told_question result ≡ nets_form (codes "nets" ∷ map string_bytes rest.now) }
    ensures workers { IfSome result HasWorkers }
{
    let [tech, gds, top] = rest else {
        return None;
    };
    Some(alone(Inspection::Nets(LayoutWords {
        tech: tech.as_str(),
        gds: gds.as_str(),
        top: top.as_str(),
    })))
}

/// `compare TECH GDS SP TOP`, if the words after `compare` are that.
fn compare_in(rest: &[String]) -> Option<Question<'_>>
    ensures words { option_map told_question result ≡ compare_form (codes "compare" ∷ map string_bytes rest.now) }
    ensures workers { IfSome result HasWorkers }
{
    let [tech, gds, netlist, top] = rest else {
        return None;
    };
    let layout = LayoutWords {
        tech: tech.as_str(),
        gds: gds.as_str(),
        top: top.as_str(),
    };
    let netlist = netlist.as_str();
    Some(alone(Inspection::Compare { layout, netlist }))
}

/// Whether all bytes are printable ASCII.
fn are_printable(text: &[u8]) -> bool
    ensures { result ≡ list_all is_printable_byte text.now }
{
    text.iter().all(|b| matches!(*b, 32..=126))
}

/// Whether a configuration may name its technology so.
fn is_tech_name(word: &String) -> bool
    ensures { result ≡ is_file_text (string_bytes word.now) }
{
    let text = word.as_bytes();
    if text.is_empty() || 200 < text.len() {
        return false;
    }
    are_printable(text)
}

/// `devices TECH`, if the words after `devices` are that.
fn devices_in(rest: &[String]) -> Option<Question<'_>>
    ensures words { option_map told_question result ≡ devices_form (codes "devices" ∷ map string_bytes rest.now) }
    ensures workers { IfSome result HasWorkers }
{
    match rest {
        [tech] if is_tech_name(tech) => Some(alone(Inspection::Devices(tech.as_str()))),
        _ => None,
    }
}

/// `kit TECH WORKERS`, if the words after `kit` are that.
fn kit_in(rest: &[String]) -> Option<Question<'_>>
    ensures words { option_map told_question result ≡ kit_form (codes "kit" ∷ map string_bytes rest.now) }
    ensures workers { IfSome result HasWorkers }
{
    match rest {
        [tech, workers] if is_tech_name(tech) => {
            let workers = workers_in(workers)?;
            let asked = Inspection::Kit(tech.as_str());
            Some(Question { asked, workers })
        }
        _ => None,
    }
}

/// What the words ask; `None` if they are no form.
pub fn command_in(words: &[String]) -> Option<Command<'_>>
    ensures { IsCommandIn (map string_bytes words.now) result }
{
    let (first, rest) = words.split_first()?;
    match first.as_str() {
        "build" => build_in(rest).map(Command::Make),
        "demo" => demo_in(rest).map(Command::Make),
        "rom" => rom_in(rest).map(Command::Make),
        "check" => check_in(rest).map(Command::Answer),
        "nets" => nets_in(rest).map(Command::Answer),
        "compare" => compare_in(rest).map(Command::Answer),
        "devices" => devices_in(rest).map(Command::Answer),
        "kit" => kit_in(rest).map(Command::Answer),
        _ => None,
    }
}
