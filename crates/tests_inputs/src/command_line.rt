//! Command lines and what they ask for. A line has one space between two arguments. Two spaces have an empty argument
//! between them, and an empty line has no arguments.

use crate::cases::{cases, same};
use size_core::{Format, Names, Text};
use size_options::{OptionAnswer, Options, options};
use std::alloc::Global;
use std::process::Abort;

fn words_of(rt: &impl Abort, alloc: Global, line: &str) -> Vec<String> {
    let mut words = Vec::new(alloc);
    if line.is_empty() {
        return words;
    }
    for word in line.split(' ') {
        let word = String::from_str(alloc, word).expect(rt, "memory");
        words.push(word).expect(rt, "memory");
    }
    words
}

fn read(rt: &impl Abort, alloc: Global, line: &str) -> Result<Options, OptionAnswer> {
    options(alloc, &words_of(rt, alloc, line))
}

// A line that grows.
#[derive(Drop)]
struct Line {
    text: String,
}

impl Line {
    fn push(&mut self, rt: &impl Abort, text: &str) {
        self.text.push_str(text).expect(rt, "memory");
    }

    fn push_names(&mut self, rt: &impl Abort, names: &Names, between: &str) {
        for i in 0..names.len() {
            if i > 0 {
                self.push(rt, between);
            }
            self.push(rt, names.get(i).as_str());
        }
    }

    fn push_option(&mut self, rt: &impl Abort, option: &str, value: &Option<Text>) {
        if let Some(text) = value {
            self.push(rt, option);
            self.push(rt, text.as_str());
        }
    }

    // The options that always have a value.
    fn push_values(&mut self, rt: &impl Abort, alloc: Global, options: &Options) {
        let (limit, sort, domain) = (options.limit, options.sort, options.domain);
        let values = format!(in alloc; " -n {limit} -s {sort:?} --domain {domain:?}");
        self.push(rt, values.expect(rt, "memory").as_str());
        self.push(rt, if options.wide { " -w" } else { "" });
        self.push(rt, format_option(options.format));
    }

    // The options that can be absent.
    fn push_given(&mut self, rt: &impl Abort, alloc: Global, options: &Options) {
        self.push_option(rt, " -c ", &options.config);
        self.push_option(rt, " --source-filter ", &options.filter);
        self.push_option(rt, " --debug-file ", &options.debug);
        if let Some(synth) = options.synth {
            let number = format!(in alloc; " --synth {synth}").expect(rt, "memory");
            self.push(rt, number.as_str());
        }
    }

    fn push_files(&mut self, rt: &impl Abort, title: &str, files: &Names) {
        if files.len() > 0 {
            self.push(rt, title);
            self.push_names(rt, files, " ");
        }
    }
}

fn format_option(format: Format) -> &'static str {
    match format {
        Format::Text => "",
        Format::Csv => " --csv",
        Format::Tsv => " --tsv",
    }
}

// The options as a line that asks for them, in a fixed order.
fn line_of(rt: &impl Abort, alloc: Global, options: &Options) -> String {
    let mut line = Line {
        text: String::from_str(alloc, "-d ").expect(rt, "memory"),
    };
    line.push_names(rt, &options.sources, ",");
    line.push_values(rt, alloc, options);
    line.push_given(rt, alloc, options);
    line.push_files(rt, " FILE ", &options.files);
    line.push_files(rt, " BASE ", &options.bases);
    line.text
}

const ASKED: &str = r#"# Arguments => the options that they ask for
a.elf => -d sections -n 20 -s Both --domain Both FILE a.elf
-d symbols a.elf => -d symbols -n 20 -s Both --domain Both FILE a.elf
-d nope a.elf => -d nope -n 20 -s Both --domain Both FILE a.elf
-d segments,sections a.elf => -d segments,sections -n 20 -s Both --domain Both FILE a.elf
-d a,b,c,d,e,f,g,a a.elf => -d a,b,c,d,e,f,g,a -n 20 -s Both --domain Both FILE a.elf
-n 0 a.elf => -d sections -n 0 -s Both --domain Both FILE a.elf
-n 0000000007 a.elf => -d sections -n 7 -s Both --domain Both FILE a.elf
-n 4294967295 a.elf => -d sections -n 4294967295 -s Both --domain Both FILE a.elf
-s vm a.elf => -d sections -n 20 -s Vm --domain Both FILE a.elf
-s file a.elf => -d sections -n 20 -s File --domain Both FILE a.elf
-s both a.elf => -d sections -n 20 -s Both --domain Both FILE a.elf
--domain vm a.elf => -d sections -n 20 -s Both --domain Vm FILE a.elf
--domain=file a.elf => -d sections -n 20 -s Both --domain File FILE a.elf
--domain=both a.elf => -d sections -n 20 -s Both --domain Both FILE a.elf
-w a.elf => -d sections -n 20 -s Both --domain Both -w FILE a.elf
--csv a.elf => -d sections -n 20 -s Both --domain Both --csv FILE a.elf
--tsv a.elf => -d sections -n 20 -s Both --domain Both --tsv FILE a.elf
-c conf a.elf => -d sections -n 20 -s Both --domain Both -c conf FILE a.elf
--source-filter ^x a.elf => -d sections -n 20 -s Both --domain Both --source-filter ^x FILE a.elf
--source-filter=( a.elf => -d sections -n 20 -s Both --domain Both --source-filter ( FILE a.elf
--source-filter= a.elf => -d sections -n 20 -s Both --domain Both --source-filter  FILE a.elf
--synth 0 => -d sections -n 20 -s Both --domain Both --synth 0
--synth=1000000 => -d sections -n 20 -s Both --domain Both --synth 1000000
b.so a.elf b.so => -d sections -n 20 -s Both --domain Both FILE b.so a.elf b.so
a.elf -w => -d sections -n 20 -s Both --domain Both -w FILE a.elf
a.elf -- b.so => -d sections -n 20 -s Both --domain Both FILE a.elf BASE b.so
a.elf b.so -- -- --nope  a.elf => -d sections -n 20 -s Both --domain Both FILE a.elf b.so BASE -- --nope  a.elf
--synth 5 -n 0 -- a.elf => -d sections -n 0 -s Both --domain Both --synth 5 BASE a.elf
--csv -n 0 -d sections --domain=file a.elf => -d sections -n 0 -s Both --domain File --csv FILE a.elf
-w -s vm --domain file --tsv -n 5 -c conf --source-filter=x -d mine,symbols a.elf b.so => -d mine,symbols -n 5 -s Vm --domain File -w --tsv -c conf --source-filter x FILE a.elf b.so
--debug-file a.debug a.elf => -d sections -n 20 -s Both --domain Both --debug-file a.debug FILE a.elf
a.elf --debug-file=a.debug => -d sections -n 20 -s Both --domain Both --debug-file a.debug FILE a.elf
"#;

// The line asks for the options that the other line shows.
fn asks_for(rt: &impl Abort, alloc: Global, line: &str, wanted: &str) {
    match read(rt, alloc, line) {
        Ok(options) => same(rt, line, line_of(rt, alloc, &options).as_str(), wanted),
        Err(answer) => assert!(rt; false, "{line}: {answer:?}"),
    }
}

#[test]
fn reads_the_options(rt: HostRuntime) {
    let cases = cases(&rt, rt.alloc(), ASKED, 32);
    for &(line, wanted) in cases.as_slice() {
        asks_for(&rt, rt.alloc(), line, wanted);
    }
}

const MISUSED: &str = r#"# Arguments => the kind of misuse
 => NoFile
-w => NoFile
-n x a.elf => BadNumber
-n +5 a.elf => BadNumber
-n  a.elf => BadNumber
-n 4294967296 a.elf => BadNumber
-n 00000000001 a.elf => BadNumber
--synth 1000001 => BadNumber
--synth= a.elf => BadNumber
-n x -s size a.elf => BadNumber
-s size a.elf => BadSort
-s VM --domain x a.elf => BadSort
--domain  a.elf => BadDomain
--domain files --csv --tsv a.elf => BadDomain
--csv --tsv a.elf => TwoFormats
--tsv --csv -d , a.elf => TwoFormats
-d sections,, a.elf => BadSourceList
-d ,sections a.elf => BadSourceList
-d a,,b a.elf => BadSourceList
-d  a.elf => BadSourceList
-d a,b,c,d,e,f,g,h,i a.elf => BadSourceList
-d , => BadSourceList
--csv => NoFile
--synth 5 a.elf => SynthWithFile
a.elf --synth 5 -- b.so => SynthWithFile
-- => NoFile
-- a.elf => NoFile
a.elf -- => NoBase
--synth 5 -- => NoBase
--nope a.elf => Words
-x a.elf => Words
-n => Words
--domain => Words
a.elf -d => Words
-n 5 -n 5 a.elf => Words
-w=x a.elf => Words
--csv=yes a.elf => Words
--help => Words
--version => Words
-n x --nope => Words
-d -- a.elf => Words
"#;

// The line is misused in this way.
fn is_refused(rt: &impl Abort, alloc: Global, line: &str, wanted: &str) {
    let Some(OptionAnswer::Usage(kind)) = read(rt, alloc, line).err() else {
        panic!(rt; "no misuse in {line}");
    };
    let found = format!(in alloc; "{kind:?}").expect(rt, "memory");
    same(rt, line, found.as_str(), wanted);
}

fn are_refused(rt: &impl Abort, alloc: Global, text: &str, count: usize) {
    let cases = cases(rt, alloc, text, count);
    for &(line, wanted) in cases.as_slice() {
        is_refused(rt, alloc, line, wanted);
    }
}

#[test]
fn refuses_misused_arguments(rt: HostRuntime) {
    are_refused(&rt, rt.alloc(), MISUSED, 41);
}

const PLACES: &str = r#"# Arguments => the location that they ask for
--debug-fileoff 0 a.elf => Offset(0)
--debug-fileoff=120 a.elf => Offset(120)
--debug-fileoff 1844674407370955161 a.elf => Offset(1844674407370955161)
--debug-fileoff 18446744073709551615 a.elf => Offset(18446744073709551615)
--debug-fileoff 00000000000000000007 a.elf => Offset(7)
--debug-fileoff 0x0 a.elf => Offset(0)
--debug-fileoff 0xffffffffffffffff a.elf => Offset(18446744073709551615)
--debug-fileoff 0x00ABCDEFabcdef00 a.elf => Offset(48358650280800000)
--synth 5 --debug-fileoff 64 => Offset(64)
--debug-vmaddr 0x400000 a.elf => Address(0, 4194304)
--debug-vmaddr=18446744073709551615 a.elf => Address(0, 18446744073709551615)
--debug-vmaddr 1:0x10 a.elf => Address(1, 16)
--debug-vmaddr 0000000002:3 a.elf => Address(2, 3)
--debug-vmaddr 4294967295:0xffffffffffffffff a.elf => Address(4294967295, 18446744073709551615)
"#;

// The line asks for this location.
fn asks_at(rt: &impl Abort, alloc: Global, line: &str, wanted: &str) {
    let options = read(rt, alloc, line).expect(rt, "options");
    let place = options.place.expect(rt, "a location");
    let found = format!(in alloc; "{place:?}").expect(rt, "memory");
    same(rt, line, found.as_str(), wanted);
}

#[test]
fn reads_a_location(rt: HostRuntime) {
    let cases = cases(&rt, rt.alloc(), PLACES, 14);
    for &(line, wanted) in cases.as_slice() {
        asks_at(&rt, rt.alloc(), line, wanted);
    }
}

const BAD_PLACES: &str = r#"# Arguments whose location can't be read => the kind of misuse
--debug-fileoff=12x a.elf => BadPlace
--debug-fileoff= a.elf => BadPlace
--debug-fileoff=x a.elf => BadPlace
--debug-fileoff=18446744073709551616 a.elf => BadPlace
--debug-fileoff=000000000000000000001 a.elf => BadPlace
--debug-fileoff=0x a.elf => BadPlace
--debug-fileoff=0x00000000000000001 a.elf => BadPlace
--debug-fileoff=0xg a.elf => BadPlace
--debug-fileoff=0X10 a.elf => BadPlace
--debug-fileoff=+5 a.elf => BadPlace
--debug-fileoff=0x+5 a.elf => BadPlace
--debug-fileoff=1:0x10 a.elf => BadPlace
--debug-vmaddr= a.elf => BadPlace
--debug-vmaddr=12x a.elf => BadPlace
--debug-vmaddr=:5 a.elf => BadPlace
--debug-vmaddr=5: a.elf => BadPlace
--debug-vmaddr=: a.elf => BadPlace
--debug-vmaddr=4294967296:0 a.elf => BadPlace
--debug-vmaddr=00000000001:5 a.elf => BadPlace
--debug-vmaddr=0x1:5 a.elf => BadPlace
--debug-vmaddr=1:2:3 a.elf => BadPlace
--debug-vmaddr=1:18446744073709551616 a.elf => BadPlace
"#;

const MISUSED_DEBUG: &str =
    r#"# Arguments that misuse a debug file or a location => the kind of misuse
--debug-file d a.elf b.elf => DebugFile
--debug-file d a.elf -- b.elf => DebugFile
--debug-file d --synth 5 => DebugFile
--debug-file d --debug-fileoff x a.elf b.elf => DebugFile
--debug-file d => NoFile
--debug-file d a.elf -- => NoBase
--debug-file d --debug-file d a.elf => Words
--debug-file d --debug-fileoff x a.elf => BadPlace
--debug-fileoff x --debug-vmaddr 1 a.elf => BadPlace
--debug-fileoff 1 --debug-vmaddr x a.elf b.elf => BadPlace
--debug-fileoff 1 --debug-vmaddr 1 a.elf => TwoPlaces
--debug-fileoff 1 --debug-vmaddr 1 a.elf b.elf => TwoPlaces
--debug-fileoff 1 a.elf b.elf => PlaceFile
--debug-vmaddr 1 a.elf b.elf => PlaceFile
--debug-vmaddr 1 a.elf -- b.elf => PlaceFile
--debug-fileoff 1 --synth 5 -- a.elf => PlaceFile
--debug-file d --debug-fileoff 1 a.elf => PlaceFile
--debug-vmaddr 1 => NoFile
--debug-vmaddr 1 a.elf -- => NoBase
"#;

#[test]
fn refuses_misused_debug_files_and_locations(rt: HostRuntime) {
    are_refused(&rt, rt.alloc(), BAD_PLACES, 22);
    are_refused(&rt, rt.alloc(), MISUSED_DEBUG, 19);
}
