//! Configurations, and what they say of uploads.

use crate::out::Out;
use records::Changes;
use rules::{Config, Days, Place, Suite, Verdict, component_of_section, judge};
use test_rows::Unread;

/// `config TEXT [OLD NEW]..`: `read`, or the fault.
fn config(out: &mut Out, words: &[Vec<u8>]) {
    let text = out.edited(words);
    match Config::read(out.alloc, &text) {
        Ok(config) if config.text() == text.as_slice() => out.say("read"),
        Ok(_) => out.say("another text is kept"),
        Err(fault) => out.show(&fault),
    }
}

/// `new-config TEXT [OLD NEW]..`: `read`, or the fault, of a text that is to be a new configuration.
fn new_config(out: &mut Out, words: &[Vec<u8>]) {
    let text = out.edited(words);
    match Config::read_strict(out.alloc, &text) {
        Ok(config) if config.text() == text.as_slice() => out.say("read"),
        Ok(_) => out.say("another text is kept"),
        Err(fault) => out.show(&fault),
    }
}

/// The configuration of a text.
pub fn config_of(out: &mut Out, text: &[u8]) -> Option<Config> {
    match Config::read(out.alloc, text) {
        Ok(config) => Some(config),
        Err(_) => {
            out.refuse(Unread::BadWords);
            None
        }
    }
}

/// Adds a number, or `none`.
fn add_number(out: &mut Out, number: Option<u64>) {
    match number {
        Some(number) => out.show(number),
        None => out.say("none"),
    }
}

/// The seconds of a number of days.
fn seconds_of(days: Option<Days>) -> Option<u64> {
    match days {
        Some(days) => Some(days.seconds()),
        None => None,
    }
}

/// Adds the answer to a question on a configuration: `suites`, how many suites it has; `largest-file`, how many bytes a file may have;
/// `keep-seconds`, for how long what arrives counts, or `none`.
fn add_of_config(out: &mut Out, config: &Config, verb: &str) {
    match verb {
        "suites" => out.show(config.suites().len()),
        "largest-file" => out.show(config.largest_file()),
        _ => add_number(out, seconds_of(config.keep_days())),
    }
}

/// `suites TEXT`, `largest-file TEXT`, `keep-seconds TEXT`.
fn of_config(out: &mut Out, verb: &str, words: &[Vec<u8>]) {
    let text = out.only(words);
    if let Some(config) = config_of(out, text) {
        add_of_config(out, &config, verb);
    }
}

/// `valid-seconds PLACE TEXT`: the seconds for which a Release of the suite is valid, or `none`.
fn valid_seconds(out: &mut Out, words: &[Vec<u8>]) {
    let [place, text] = words else {
        return out.refuse(Unread::BadWords);
    };
    let place = out.number_of(place) as usize;
    if let Some(config) = config_of(out, text) {
        match config.suites().get(place) {
            Some(suite) => add_number(out, seconds_of(suite.valid_days)),
            None => out.refuse(Unread::BadWords),
        }
    }
}

/// `suite-for NAME TEXT`: the place of the suite that claims the distribution, or `none`.
fn suite_for(out: &mut Out, words: &[Vec<u8>]) {
    let [name, text] = words else {
        return out.refuse(Unread::BadWords);
    };
    let name = out.text_of(name);
    if let Some(config) = config_of(out, text) {
        match config.suite_for(name) {
            Some(place) => out.show(place),
            None => out.say("none"),
        }
    }
}

/// Adds the answer to a question on a suite.
fn add_asked(out: &mut Out, suite: &Suite, question: &str, name: &str, more: &str) {
    match question {
        "architecture" => out.yes_or_no(suite.keeps_architecture(name)),
        "component" => out.yes_or_no(suite.keeps_component(name)),
        "claims" => out.yes_or_no(suite.claims(name)),
        "allows" => out.yes_or_no(suite.allows(name, more)),
        _ => out.refuse(Unread::BadWords),
    }
}

/// `suite PLACE architecture|component|claims NAME TEXT`, `suite PLACE allows SOURCE PERSON TEXT`: `yes` or `no`.
fn suite(out: &mut Out, words: &[Vec<u8>]) {
    let (place, question, name, more, text) = match words {
        [place, question, name, text] => (place, question, name, name, text),
        [place, question, name, more, text] => (place, question, name, more, text),
        _ => return out.refuse(Unread::BadWords),
    };
    let place = out.number_of(place) as usize;
    let (question, name, more) = (out.text_of(question), out.text_of(name), out.text_of(more));
    if let Some(config) = config_of(out, text) {
        match config.suites().get(place) {
            Some(suite) => add_asked(out, suite, question, name, more),
            None => out.refuse(Unread::BadWords),
        }
    }
}

/// `component SECTION`: its component.
fn component(out: &mut Out, words: &[Vec<u8>]) {
    let [section] = words else {
        return out.refuse(Unread::BadWords);
    };
    let section = out.text_of(section);
    out.say(component_of_section(section));
}

/// Adds the places of an upload, or the number of the verdict.
fn add_verdict(out: &mut Out, judged: Result<Place, Verdict>) {
    match judged {
        Ok(place) => {
            out.say("suite ");
            out.show(place.suite);
            out.say(" component ");
            out.show(place.component);
        }
        Err(verdict) => {
            out.say("verdict ");
            out.show(verdict.number());
        }
    }
}

/// `judge CONFIG CHANGES [OLD NEW]..`: the places of suite and component, or the number of the verdict.
fn judged(out: &mut Out, words: &[Vec<u8>]) {
    let [config, changes @ ..] = words else {
        return out.refuse(Unread::BadWords);
    };
    let text = out.edited(changes);
    if let Some(config) = config_of(out, config) {
        match Changes::read(out.alloc, &text) {
            Ok(changes) => add_verdict(out, judge(&config, &changes)),
            Err(_) => out.refuse(Unread::BadWords),
        }
    }
}

/// Answers a question on configurations, and says whether the words are such a question.
pub fn answer(out: &mut Out, verb: &str, words: &[Vec<u8>]) -> bool {
    match verb {
        "config" => config(out, words),
        "new-config" => new_config(out, words),
        "suites" | "largest-file" | "keep-seconds" => of_config(out, verb, words),
        "valid-seconds" => valid_seconds(out, words),
        "suite-for" => suite_for(out, words),
        "suite" => suite(out, words),
        "component" => component(out, words),
        "judge" => judged(out, words),
        _ => return false,
    }
    true
}
