// The files that a command reads, whole and once.
use ask::Blocks;
use commands::{FilePath, Request};
use files::{Role, first_bytes};
use reply::Failure;
use std::rt::Files;

#[derive(Drop)]
struct Input {
    role: Role,
    bytes: Vec<u8>,
}

// The files of a command, each known by what it is to it.
#[derive(Drop)]
pub struct Inputs(Vec<Input>);

// Reads a file up to one byte past what such a file has at most: a longer one is cut there, and is still refused as too long.
fn read_whole<R: Files + AllocGlobal>(rt: &R, file: FilePath) -> Result<Input, Failure> {
    let FilePath { role, path } = file;
    match first_bytes(rt, path, role.most_bytes() + 1) {
        Ok(bytes) => Ok(Input { role, bytes }),
        Err(error) => Err(Failure::File(role, error.kind())),
    }
}

impl Inputs {
    // Reads them all: that one cannot be read goes before what is wrong in another.
    pub fn read<R: Files + AllocGlobal>(rt: &R, request: &Request) -> Result<Inputs, Failure> {
        let mut inputs = Vec::new(rt.alloc());
        for file in request.inputs() {
            if let Some(file) = file {
                inputs.push(read_whole(rt, file)?)?;
            }
        }
        Ok(Inputs(inputs))
    }

    // The bytes of the file that is this to the command, if there is one.
    pub fn get(&self, role: Role) -> Option<&[u8]> {
        for input in &self.0 {
            if input.role == role {
                return Some(&input.bytes);
            }
        }
        None
    }

    // The same of a text, unless it is longer than such a text may be.
    pub fn text(&self, role: Role) -> Result<Option<&[u8]>, Failure> {
        match self.get(role) {
            Some(text) if text.len() > role.most_bytes() => Err(Failure::LongText(role)),
            text => Ok(text),
        }
    }

    pub fn blocks(&self) -> Blocks<'_> {
        Blocks {
            problem: self.get(Role::Problem).unwrap_or(&[]),
            plan: self.get(Role::Plan).unwrap_or(&[]),
        }
    }
}
