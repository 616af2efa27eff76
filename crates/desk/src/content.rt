//! What the body of a reply is, by which its head names a media type.

ghost use Rattle.std.specs.Prelude.{◌≡◌};
ghost use Rattle.desk.specs.Calls.{content_of, file_content, lines_content};
ghost use Rattle.desk.specs.Reply.{content_type};
ghost use Rattle.telling.specs.Told.{question_of};

use telling::Question;

/// What the body of a reply is.
#[derive(Clone, Copy, Debug, PartialEq, Eq)]
pub enum Content {
    Text,
    /// Bytes of a file of the pool.
    Binary,
    /// Objects of JSON, one a line.
    Objects,
    /// A page for people, whose head has its policy.
    Page,
    /// Figures in Prometheus' text format.
    Figures,
}

impl Content {
    /// The media type.
    pub fn media_type(self) -> &'static str
        ensures { result.now ≡ content_type self }
    {
        match self {
            Content::Text => "text/plain; charset=utf-8",
            Content::Binary => "application/octet-stream",
            Content::Objects => "application/x-ndjson",
            Content::Page => "text/html; charset=utf-8",
            Content::Figures => "text/plain; version=0.0.4; charset=utf-8",
        }
    }

    /// What a file is: bytes, if it is of the pool, else an index text.
    pub fn of_file(is_pool: bool) -> Content
        ensures { result ≡ file_content is_pool }
    {
        if is_pool {
            Content::Binary
        } else {
            Content::Text
        }
    }

    /// Lines of text, or objects.
    fn of_lines(is_json: bool) -> Content
        ensures { result ≡ lines_content is_json }
    {
        if is_json {
            Content::Objects
        } else {
            Content::Text
        }
    }

    /// What the answer to a question is.
    pub fn of_answer(question: &Question) -> Content
        ensures { result ≡ content_of (question_of question.now) }
    {
        match question {
            Question::Why { is_json, .. } | Question::Shown { is_json, .. } => {
                Content::of_lines(*is_json)
            }
            Question::Configuration | Question::Status => Content::Text,
            Question::Waiting | Question::Verdicts => Content::Objects,
            Question::Figures => Content::Figures,
            Question::Page { .. } => Content::Page,
        }
    }
}
