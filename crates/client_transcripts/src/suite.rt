//! What the cases of a text are run over.

use crate::auth_cases::AuthCase;
use crate::pull_cases::PullCase;
use crate::request_cases::RequestCase;
use crate::topic::{TOPICS, Topic};
use crate::url_cases::UrlCase;
use base_syntax::cut;
use case_texts::{Arguments, Fault, Input, Suite, Told};
use std::alloc::Global;

/// Cases of all kinds.
#[derive(Clone, Copy, Drop)]
pub struct Cases {
    pub alloc: Global,
}

/// What a case is run over.
#[derive(Drop)]
pub enum Subject {
    Url(UrlCase),
    Auth(AuthCase),
    Request(RequestCase),
    Pull(PullCase),
}

impl Suite for Cases {
    type Kind = Topic;

    type Subject = Subject;

    fn kinds(&self) -> &[Topic] {
        &TOPICS
    }

    fn begin(&self, topic: Topic) -> Result<Subject, Fault> {
        Ok(match topic {
            Topic::Url => Subject::Url(UrlCase::new(self.alloc)),
            Topic::Auth => Subject::Auth(AuthCase::new(self.alloc)?),
            Topic::Request => Subject::Request(RequestCase::new()),
            Topic::Pull => Subject::Pull(PullCase::new()),
        })
    }

    fn run(&self, subject: &mut Subject, input: &Input, told: &mut Told) -> Result<(), Fault> {
        match input {
            Input::Block { from, bytes } => match subject {
                Subject::Pull(case) => case.take_in(from.unwrap_or(0), bytes, told.alloc()),
                _ => Err(Fault::NoInput),
            },
            Input::Call(line) => {
                let (word, behind) = cut(line, b' ');
                let mut arguments = Arguments::new(behind);
                call(subject, word, &mut arguments, told)?;
                arguments.end()
            }
            Input::End => Ok(()),
        }
    }
}

fn call(
    subject: &mut Subject,
    word: &[u8],
    arguments: &mut Arguments<'_>,
    told: &mut Told,
) -> Result<(), Fault> {
    match subject {
        Subject::Url(case) => case.call(word, arguments, told),
        Subject::Auth(case) => case.call(word, arguments, told),
        Subject::Request(case) => case.call(word, arguments, told),
        Subject::Pull(case) => case.call(word, arguments, told),
    }
}
