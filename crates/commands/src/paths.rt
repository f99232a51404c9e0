// Which files a command reads and writes.
ghost use Rattle.std.specs.Prelude.{◌≡◌, option_map};

use crate::command::{Command, Request, TaskPaths};
use files::Role;

// A file of a command: what it is to it, and its path.
#[derive(Clone, Copy)]
pub struct FilePath<'a> {
    pub role: Role,
    pub path: &'a str,
}

impl<'a> FilePath<'a> {
    ghost use Rattle.commands.specs.FilePaths.{file_at};

    fn of(role: Role, path: &'a str) -> FilePath<'a>
        ensures { result ≡ file_at role path.entry }
    {
        FilePath { role, path }
    }

    fn maybe(role: Role, path: Option<&'a str>) -> Option<FilePath<'a>>
        ensures { result ≡ option_map (file_at role) path.entry }
    {
        match path {
            None => None,
            Some(path) => Some(FilePath::of(role, path)),
        }
    }
}

impl<'a> TaskPaths<'a> {
    ghost use Rattle.commands.specs.FilePaths.{task_files};

    fn files(self, third: Option<FilePath<'a>>) -> [Option<FilePath<'a>>; 3]
        ensures { result ≡ task_files self.entry third.entry }
    {
        let problem = FilePath::of(Role::Problem, self.problem);
        let plan = FilePath::of(Role::Plan, self.plan);
        [Some(problem), Some(plan), third]
    }
}

impl<'a> Command<'a> {
    ghost use Rattle.commands.specs.FilePaths.{files_read, files_written};

    fn files_read(self) -> [Option<FilePath<'a>>; 3]
        ensures { result ≡ files_read self.entry }
    {
        match self {
            Command::Judge { task, .. } => task.files(None),
            Command::Write { task, .. } => task.files(None),
            Command::Follow { task, list } => task.files(Some(FilePath::of(Role::List, list))),
            Command::Run { task, .. } => task.files(None),
            Command::Facts { task, .. } => task.files(None),
            Command::Search { problem, .. } => {
                [Some(FilePath::of(Role::Problem, problem)), None, None]
            }
            Command::Explain { task, .. } => task.files(None),
            Command::Show { problem, plan } => [
                Some(FilePath::of(Role::Problem, problem)),
                FilePath::maybe(Role::Plan, plan),
                None,
            ],
            Command::Make { text, .. } => [Some(FilePath::of(Role::Text, text)), None, None],
        }
    }

    fn files_written(self) -> [Option<FilePath<'a>>; 2]
        ensures { result ≡ files_written self.entry }
    {
        match self {
            Command::Write { list, .. } => [None, Some(FilePath::of(Role::List, list))],
            Command::Search { plan, .. } => [None, FilePath::maybe(Role::Plan, plan)],
            Command::Make { problem, plan, .. } => [
                FilePath::maybe(Role::Plan, plan),
                Some(FilePath::of(Role::Problem, problem)),
            ],
            _ => [None, None],
        }
    }
}

impl<'a> Request<'a> {
    ghost use Rattle.commands.specs.FilePaths.{inputs, outputs};

    // The files that are read, in the order in which they are.
    pub fn inputs(self) -> [Option<FilePath<'a>>; 4]
        ensures { result ≡ inputs self.entry }
    {
        let [first, second, third] = self.command.files_read();
        [
            FilePath::maybe(Role::Names, self.names),
            first,
            second,
            third,
        ]
    }

    // The files that are written, where there is something to write, in the order in which they are.
    pub fn outputs(self) -> [Option<FilePath<'a>>; 2]
        ensures { result ≡ outputs self.entry }
    {
        self.command.files_written()
    }
}
