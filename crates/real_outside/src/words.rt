ghost use Rattle.std.specs.Prelude.{◌≡◌, [], map, drop, IfOk, IsErr, IsErrAnd, OnErr, string_bytes};
ghost use Rattle.std.specs.IoError.{error_kind};
ghost use Rattle.real_outside.specs.Words.{AreBehindName};

use net_base::{Names, NoMemory, Text};
use std::alloc::{AllocError, Global};
use std::env::Args;
use std::io::{self, ErrorKind};

fn texts_of(alloc: Global, args: &[String]) -> Result<Names, NoMemory>
    ensures { IfOk result (λ texts. texts ≡ map string_bytes args.now) }
{
    let mut texts = Names::new(alloc);
    for arg in args {
        texts.push(Text::from_str(alloc, arg.as_str())?)?;
    }
    Ok(texts)
}

/// The words behind the first one, which is the program's name.
fn behind_name(alloc: Global, args: &[String]) -> Result<Names, NoMemory>
    ensures { IfOk result (λ words. words ≡ map string_bytes (drop 1 args.now)) }
{
    match args {
        [_, words @ ..] => texts_of(alloc, words),
        [] => Ok(Names::new(alloc)),
    }
}

fn words_behind(alloc: Global, args: Args) -> Result<Names, NoMemory>
    ensures { IfOk result (AreBehindName args) }
{
    let args: Vec<String> = args.collect(alloc)?;
    behind_name(alloc, args.as_slice())
}

/// The words of the arguments that were read. Words that aren't UTF-8 are as good as none: they have no
/// meaning.
pub fn words_of(alloc: Global, args: io::Result<Args>) -> Result<Names, NoMemory>
    ensures words { IfOk args (λ args. IfOk result (AreBehindName args)) }
    ensures none { OnErr args (IfOk result (λ words. words ≡ [])) }
    ensures memory { IsErrAnd args (λ e. error_kind e ≡ ErrorKind.OutOfMemory) → IsErr result }
{
    match args {
        Ok(args) => words_behind(alloc, args),
        Err(e) if e.kind() == ErrorKind::OutOfMemory => Err(AllocError),
        Err(_) => Ok(Names::new(alloc)),
    }
}
