use crate::adapters::{ReadSource, WriteSink};
use crate::desk::desk_main;
use desk_base::{
    Bytes, CallNumbers, Items, MemKeeper, MemSink, MemSource, Sink, Source, SourceFault, Steps,
};
use std::alloc::Global;
use std::test::Fail;

const ACCOUNT: &str =
    "file Account.java 112\n@RegionLock(\"L is this protects Instance\")\nclass Account {\n  int n;\n  synchronized void deposit() { n += 1; }\n}\n\nend\n";

const ACCOUNT_REPORT: &str =
    "report 1\nfiles 1\ntypes 1\nprogram firm\npromises 1 firm 1 contingent 0 inconsistent 0\nfindings 2 failing 0\nfirm Account RegionLock L\nend\n";

const BROKEN: &str =
    "file Account.java 138\n@RegionLock(\"L is this protects Instance\")\nclass Account {\n  int n;\n  synchronized void deposit() { n += 1; }\n  int get() { return n; }\n}\n\nend\n";

const BROKEN_REPORT: &str =
    "report 1\nfiles 1\ntypes 1\nprogram firm\npromises 1 firm 0 contingent 0 inconsistent 1\nfindings 3 failing 1\ninconsistent Account RegionLock L blame L01#1 Account.get/0 > Account RegionLock L\nfinding L01#1 Account.get/0 > Account RegionLock L at Account.java:5 reads a guarded field without its lock: n\nend\n";

const EMPTY_REPORT: &str =
    "report 1\nfiles 0\ntypes 0\nprogram firm\npromises 0 firm 0 contingent 0 inconsistent 0\nfindings 0 failing 0\nend\n";

const TWO_FILES_REPORT: &str =
    "report 1\nfiles 2\ntypes 2\nprogram firm\npromises 0 firm 0 contingent 0 inconsistent 0\nfindings 0 failing 0\nend\n";

const ONE_TYPE_REPORT: &str =
    "report 1\nfiles 1\ntypes 1\nprogram firm\npromises 0 firm 0 contingent 0 inconsistent 0\nfindings 0 failing 0\nend\n";

const USAGE: &str = "usage: promise_desk check | script DB | serve DB PORT COUNT | sample N\n";

/// A source that gives one byte at a time.
#[derive(Drop)]
struct SlowSource {
    inner: MemSource,
}

impl Source for SlowSource {
    ghost use Rattle.desk_base.specs.declared.source.MemSource.{MemSource};

    ghost left = { λ s. ⟦<MemSource as Source>⟧.left s.inner };

    ghost faults = { λ s. ⟦<MemSource as Source>⟧.faults s.inner };

    ghost quiet = { λ s. ⟦<MemSource as Source>⟧.quiet s.inner };

    fn take(&mut self, buf: &mut [u8]) -> Result<u32, SourceFault> {
        self.inner.take(&mut buf[..1])
    }
}

// The numbers of calls that fail: none, or one.
fn calls(alloc: Global, fails: Option<u64>) -> Result<CallNumbers, Fail> {
    let mut numbers = Items::new(alloc);
    if let Some(number) = fails {
        numbers.push(number)?;
    }
    Ok(CallNumbers::new(numbers))
}

// The status and the output of a run in memory.
fn run(
    alloc: Global,
    word: &str,
    input: &str,
    input_fails: Option<u64>,
    output_fails: Option<u64>,
) -> Result<(u8, Bytes), Fail> {
    let mut words = Vec::new(alloc);
    words.push(String::from_str(alloc, word)?)?;
    let held = Bytes::from_slice(alloc, input.as_bytes())?;
    let mut source = MemSource::new(held, calls(alloc, input_fails)?);
    let mut sink = MemSink::new(alloc, 4096, calls(alloc, output_fails)?)?;
    let code = desk_main(
        alloc,
        &words,
        &mut source,
        &mut sink,
        &mut MemKeeper,
        &mut Steps::new(()),
    );
    Ok((code, Bytes::from_slice(alloc, sink.written())?))
}

/// The class of the broken account.
const BROKEN_CLASS: &str =
    "@RegionLock(\"L is this protects Instance\")\nclass Account {\n  int n;\n  synchronized void deposit() { n += 1; }\n  int get() { return n; }\n}\n";

/// A word, an input, the calls that fail of the source and of the sink, and how the run ends.
const RUNS: [(&str, &str, Option<u64>, Option<u64>, u8, &str); 26] = [
    ("check", ACCOUNT, None, None, 0, ACCOUNT_REPORT),
    ("check", BROKEN, None, None, 1, BROKEN_REPORT),
    ("check", "end\n", None, None, 0, EMPTY_REPORT),
    (
        "check",
        "file Account.java 112\n@RegionLock(\"L is this protects Instance\")\nclass Account {\n  int n;\n  synchronized void deposit() { n += 1; }\n}\n\nend\n ",
        None,
        None,
        6,
        "bad bundle at 139\n",
    ),
    (
        "check",
        "file A.java 19\nclass A { long n; }\nend\n",
        None,
        None,
        7,
        "unreadable A.java grammar at 10\n",
    ),
    (
        "check",
        "file A.java 13\nclass A { # }\nend\n",
        None,
        None,
        7,
        "unreadable A.java lex at 10\n",
    ),
    (
        "check",
        "file A.java 75\nclass aaaaaaaaaaaaaaaaaaaaaaaaaaaaaaaaaaaaaaaaaaaaaaaaaaaaaaaaaaaaaaaaa { }\nend\n",
        None,
        None,
        7,
        "unreadable A.java name at 6\n",
    ),
    (
        "check",
        "file B.java 1\n#\nfile A.java 19\nclass A { long n; }\nend\n",
        None,
        None,
        7,
        "unreadable A.java grammar at 10\n",
    ),
    (
        "check",
        "file A.java 157\nclass A { int f() { return ((((((((((((((((((((((((((((((((((((((((((((((((((((((((((((((1)))))))))))))))))))))))))))))))))))))))))))))))))))))))))))))); } }\nend\n",
        None,
        None,
        7,
        "unreadable A.java grammar at 10\n",
    ),
    (
        "check",
        "file A.java 155\nclass A { int f() { return (((((((((((((((((((((((((((((((((((((((((((((((((((((((((((((1))))))))))))))))))))))))))))))))))))))))))))))))))))))))))))); } }\nend\n",
        None,
        None,
        0,
        ONE_TYPE_REPORT,
    ),
    (
        "check",
        "file A.java 11\nclass A { }\nfile B.java 19\nclass A { long n; }\nend\n",
        None,
        None,
        7,
        "unreadable B.java grammar at 10\n",
    ),
    (
        "check",
        "file B.java 11\nclass A { }\nfile A.java 11\nclass A { }\nend\n",
        None,
        None,
        8,
        "type A in A.java and B.java\n",
    ),
    (
        "check",
        "file A.java 23\nclass A { } class A { }\nend\n",
        None,
        None,
        8,
        "type A in A.java and A.java\n",
    ),
    (
        "check",
        "file B.java 11\nclass B { }\nfile A.java 27\nclass A { } interface B { }\nend\n",
        None,
        None,
        8,
        "type B in A.java and B.java\n",
    ),
    (
        "check",
        "file C.java 23\nclass B { } class A { }\nfile A.java 22\nclass A { boolean b; }\nend\n",
        None,
        None,
        8,
        "type A in A.java and C.java\n",
    ),
    (
        "check",
        "file A.java 11\nclass A { }\nfile B.java 0\n\nend\n",
        None,
        None,
        0,
        "report 1\nfiles 2\ntypes 1\nprogram firm\npromises 0 firm 0 contingent 0 inconsistent 0\nfindings 0 failing 0\nend\n",
    ),
    (
        "check",
        "file B.java 28\n@Vouch(\"legacy\") class B { }\nfile A.java 28\n@Vouch(\"legacy\") class A { }\nend\n",
        None,
        None,
        7,
        "unreadable A.java form at 0\n",
    ),
    (
        "check",
        "file B.java 11\nclass B { }\nfile A.java 11\nclass A { }\nend\n",
        None,
        None,
        0,
        TWO_FILES_REPORT,
    ),
    (
        "check",
        "file A.java 0\n\nfile A.java 0\n\nend\n",
        None,
        None,
        6,
        "bad bundle at 15\n",
    ),
    ("check", "", None, None, 6, "bad bundle at 0\n"),
    ("check", "end\n ", None, None, 6, "bad bundle at 4\n"),
    ("check now", "end\n", None, None, 2, USAGE),
    ("check", "end\n", Some(1), None, 3, "input fault\n"),
    ("check", "end\n", Some(2), None, 3, "input fault\n"),
    ("check", "end\n", None, Some(1), 4, ""),
    ("", "end\n", None, None, 2, USAGE),
];

#[test]
fn ends_as_the_input_says(rt: HostRuntime) -> Result<(), Fail> {
    for (word, input, input_fails, output_fails, want, text) in RUNS {
        let (code, written) = run(rt.alloc(), word, input, input_fails, output_fails)?;
        assert_eq!(rt; code, want, "{input}");
        assert!(rt; written.as_slice() == text.as_bytes(), "{input}");
    }
    Ok(())
}

/// Headers of a file, how many bytes of a comment stand behind its class, and how the run ends.
const LONG_FILES: [(&str, usize, &str); 2] = [
    ("file Account.java 262144\n", 262004, BROKEN_REPORT),
    (
        "file Account.java 262145\n",
        262005,
        "limit file bytes 262144\n",
    ),
];

#[test]
fn names_a_limit(rt: HostRuntime) -> Result<(), Fail> {
    for (header, count, text) in LONG_FILES {
        let mut bundle = String::from_str(rt.alloc(), header)?;
        bundle.push_str(BROKEN_CLASS)?;
        bundle.push_str("//")?;
        for _ in 0..count {
            bundle.push('x')?;
        }
        bundle.push_str("\nend\n")?;
        let (_, written) = run(rt.alloc(), "check", bundle.as_str(), None, None)?;
        assert!(rt; written.as_slice() == text.as_bytes(), "{header}");
    }
    Ok(())
}

/// What eight files of 13723 bytes begin with.
const MANY_FINDINGS: [&str; 8] = [
    "file A.java 13723\n@RegionLock(\"L is this protects Instance\") class A{int n;void f(){",
    "file B.java 13723\n@RegionLock(\"L is this protects Instance\") class B{int n;void f(){",
    "file C.java 13723\n@RegionLock(\"L is this protects Instance\") class C{int n;void f(){",
    "file D.java 13723\n@RegionLock(\"L is this protects Instance\") class D{int n;void f(){",
    "file E.java 13723\n@RegionLock(\"L is this protects Instance\") class E{int n;void f(){",
    "file F.java 13723\n@RegionLock(\"L is this protects Instance\") class F{int n;void f(){",
    "file G.java 13723\n@RegionLock(\"L is this protects Instance\") class G{int n;void f(){",
    "file H.java 13723\n@RegionLock(\"L is this protects Instance\") class H{int n;void f(){",
];

#[test]
fn names_the_limit_of_findings(rt: HostRuntime) -> Result<(), Fail> {
    let mut bundle = String::new(rt.alloc());
    for class in MANY_FINDINGS {
        bundle.push_str(class)?;
        for _ in 0..2731 {
            bundle.push_str("n+=n;")?;
        }
        bundle.push_str("}}\n")?;
    }
    bundle.push_str("end\n")?;
    let (code, written) = run(rt.alloc(), "check", bundle.as_str(), None, None)?;
    assert_eq!(rt; code, 9);
    assert!(rt; written.as_slice() == b"limit findings 65536\n".as_slice());
    Ok(())
}

/// Texts of files, and the reports on them from the line of the program on.
const JUDGED: [(&str, &str); 11] = [
    (
        "@RegionLock(\"L is this protects Instance\")\nclass Account {\n  int n;\n  synchronized void deposit() { n += 1; }\n  @RequiresLock(\"L\") int get() { return n; }\n  int peek() { return get(); }\n}\n",
        "program firm\npromises 2 firm 0 contingent 0 inconsistent 2\nfindings 4 failing 1\ninconsistent Account RegionLock L blame L03#1 Account.peek/0 > Account.get/0 RequiresLock this:L\ninconsistent Account.get/0 RequiresLock this:L blame L03#1 Account.peek/0 > Account.get/0 RequiresLock this:L\nfinding L03#1 Account.peek/0 > Account.get/0 RequiresLock this:L at A.java:6 calls without a required lock: get\nend\n",
    ),
    (
        "@RegionLock(\"L is this protects Instance\")\nclass A {\n  int n;\n  static void f(A a, A b) { synchronized (b) { a.n = 1; } }\n}\n",
        "program firm\npromises 1 firm 0 contingent 0 inconsistent 1\nfindings 1 failing 1\ninconsistent A RegionLock L blame L02#1 A.f/2 > A RegionLock L\nfinding L02#1 A.f/2 > A RegionLock L at A.java:4 writes a guarded field without its lock: n\nend\n",
    ),
    (
        "@RegionLock(\"L is this protects Instance\")\nclass A {\n  int n;\n  static void f(A a, A b) { synchronized (a) { a.n = 1; } }\n}\n",
        "program firm\npromises 1 firm 1 contingent 0 inconsistent 0\nfindings 1 failing 0\nfirm A RegionLock L\nend\n",
    ),
    (
        "@RegionLock(\"L is this protects Instance\")\nclass A {\n  int n;\n  @RequiresLock(\"L\") void p() { n = 1; q(); }\n  @RequiresLock(\"L\") void q() { p(); }\n}\n",
        "program firm\npromises 3 firm 3 contingent 0 inconsistent 0\nfindings 3 failing 0\nfirm A RegionLock L\nfirm A.p/0 RequiresLock this:L\nfirm A.q/0 RequiresLock this:L\nend\n",
    ),
    (
        "@RegionLock(\"L is m protects Instance\")\nclass C {\n  Object m = new Object();\n  int n;\n}\n",
        "program firm\npromises 1 firm 0 contingent 0 inconsistent 1\nfindings 1 failing 1\ninconsistent C RegionLock #1 blame S07#1 C > C RegionLock #1\nfinding S07#1 C > C RegionLock #1 at A.java:1 bad lock field: RegionLock\nend\n",
    ),
    (
        "@RegionLock(\"L is m protects\")\nclass C { }\n",
        "program firm\npromises 1 firm 0 contingent 0 inconsistent 1\nfindings 1 failing 1\ninconsistent C RegionLock #1 blame S01#1 C > C RegionLock #1\nfinding S01#1 C > C RegionLock #1 at A.java:1 bad content: RegionLock\nend\n",
    ),
    (
        "@Region(\"A extends B\")\n@Region(\"B extends A\")\nclass C { }\n",
        "program firm\npromises 2 firm 0 contingent 0 inconsistent 2\nfindings 2 failing 2\ninconsistent C Region #1 blame S05#1 C > C Region #1\ninconsistent C Region #2 blame S04#1 C > C Region #2\nfinding S05#1 C > C Region #1 at A.java:1 region cycle: Region\nfinding S04#1 C > C Region #2 at A.java:2 unknown region: Region\nend\n",
    ),
    (
        "@RegionLock(\"L is this protects Instance\")\nclass A {\n  B b;\n}\n",
        "program inconsistent blame B01#1 A.b > Program\npromises 1 firm 0 contingent 0 inconsistent 1\nfindings 1 failing 1\ninconsistent A RegionLock L blame B01#1 A.b > Program\nfinding B01#1 A.b > Program at A.java:3 unknown type: B\nend\n",
    ),
    (
        "class A { boolean b; int f(int n) { return n + 1; } }",
        "program firm\npromises 0 firm 0 contingent 0 inconsistent 0\nfindings 0 failing 0\nend\n",
    ),
    (
        "interface A { int f(); }",
        "program firm\npromises 0 firm 0 contingent 0 inconsistent 0\nfindings 0 failing 0\nend\n",
    ),
    (
        "package p; public class A { A() { } }",
        "program firm\npromises 0 firm 0 contingent 0 inconsistent 0\nfindings 0 failing 0\nend\n",
    ),
];

/// Texts of files with a type that isn't judged so far.
const UNJUDGED: [&str; 5] = [
    "@Vouch(\"legacy\") class A { }",
    "class A { @Unique A a; }",
    "class A { void f(@Borrowed A a) { } }",
    "class A { @Unique(\"bad content\") A a; }",
    "class A { @Starts(\"nothing\") void f() { } }",
];

/// The bundle of one file.
fn bundle_of(alloc: Global, text: &str) -> Result<String, Fail> {
    let len = text.len();
    Ok(format!(in alloc; "file A.java {len}\n{text}\nend\n")?)
}

#[test]
fn judges_by_locks(rt: HostRuntime) -> Result<(), Fail> {
    let alloc = rt.alloc();
    for (text, report) in JUDGED {
        let bundle = bundle_of(alloc, text)?;
        let (_, written) = run(alloc, "check", bundle.as_str(), None, None)?;
        let want = format!(in alloc; "report 1\nfiles 1\ntypes 1\n{report}")?;
        assert!(rt; written.as_slice() == want.as_bytes(), "{text}");
    }
    Ok(())
}

#[test]
fn tells_what_is_not_judged(rt: HostRuntime) -> Result<(), Fail> {
    let alloc = rt.alloc();
    for text in UNJUDGED {
        let bundle = bundle_of(alloc, text)?;
        let (_, written) = run(alloc, "check", bundle.as_str(), None, None)?;
        assert!(rt;
            written.as_slice() == b"unreadable A.java form at 0\n".as_slice(),
            "{text}"
        );
    }
    Ok(())
}

#[test]
fn reads_one_byte_at_a_time(rt: HostRuntime) -> Result<(), Fail> {
    let alloc = rt.alloc();
    for (input, want, text) in [(ACCOUNT, 0, ACCOUNT_REPORT), (BROKEN, 1, BROKEN_REPORT)] {
        let mut words = Vec::new(alloc);
        words.push(String::from_str(alloc, "check")?)?;
        let held = Bytes::from_slice(alloc, input.as_bytes())?;
        let inner = MemSource::new(held, calls(alloc, None)?);
        let mut source = SlowSource { inner };
        let mut sink = MemSink::new(alloc, 4096, calls(alloc, None)?)?;
        let code = desk_main(
            alloc,
            &words,
            &mut source,
            &mut sink,
            &mut MemKeeper,
            &mut Steps::new(()),
        );
        assert_eq!(rt; code, want, "{input}");
        assert!(rt; sink.written() == text.as_bytes(), "{input}");
    }
    Ok(())
}

#[test]
fn refuses_a_bundle_cut_anywhere(rt: HostRuntime) -> Result<(), Fail> {
    for len in 0..ACCOUNT.len() {
        let (code, _written) = run(
            rt.alloc(),
            "check",
            ACCOUNT.get(..len).unwrap_or(""),
            None,
            None,
        )?;
        assert_eq!(rt; code, 6, "{len}");
    }
    let (_, written) = run(
        rt.alloc(),
        "check",
        ACCOUNT.get(..135).unwrap_or(""),
        None,
        None,
    )?;
    assert!(rt; written.as_slice() == b"bad bundle at 135\n".as_slice());
    Ok(())
}

#[test]
fn reads_and_writes_through_adapters(rt: HostRuntime) -> Result<(), Fail> {
    let mut source = ReadSource {
        reader: b"end\n".as_slice(),
        faults: 0,
    };
    let mut buffer = [0u8; 3];
    assert_eq!(rt; source.take(&mut buffer)?, 3);
    assert_eq!(rt; source.take(&mut buffer)?, 1);
    assert_eq!(rt; source.take(&mut buffer)?, 0);
    let mut sink = WriteSink {
        writer: Vec::new(rt.alloc()),
        faults: 0,
    };
    assert_eq!(rt; sink.give(b"memory\n")?, 7);
    assert!(rt; sink.writer.as_slice() == b"memory\n".as_slice());
    Ok(())
}
