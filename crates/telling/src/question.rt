//! What is asked of an archive. A question is no call: it changes nothing.

/// What is asked. Most questions are answered by lines, or by an object of JSON on each line.
#[derive(Debug, Drop)]
pub enum Question {
    /// Why the uploads of this name have their verdicts, and what those that wait lack; without a name, what each waiting upload lacks.
    Why {
        name: Option<String>,
        is_json: bool,
    },
    /// What the suite with this codename shows; without a codename, what all suites show, with the codename of its suite on each line.
    Shown {
        suite: Option<String>,
        is_json: bool,
    },
    /// The text of the configuration, byte for byte.
    Configuration,
    /// The uploads without a verdict, as objects of JSON.
    Waiting,
    /// The judged uploads, as objects of JSON.
    Verdicts,
    /// Figures for monitoring, in Prometheus' text format.
    Figures,
    /// The figures as lines.
    Status,
    /// A page for people. If the Releases are signed, it names the file of the key.
    Page {
        page: Page,
        key: Option<String>,
    },
}

/// A page for people.
#[derive(Debug, Drop)]
pub enum Page {
    /// What suites there are, and how a machine installs from them.
    Suites,
    /// What waits, and what was judged.
    Uploads,
    /// What the suite with this codename shows.
    Suite { codename: String },
}
