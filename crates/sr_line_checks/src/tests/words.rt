//! The words after the program's name, and the tasks that they ask for.
use sr_words::{AskedTask, task_of};
use std::alloc::{AllocError, Global};
use std::process::Abort;
use std::test::Fail;

/// The words of these texts.
fn words_of(alloc: Global, texts: &[&str]) -> Result<Vec<String>, AllocError> {
    let mut words = Vec::new(alloc);
    for text in texts {
        words.push(String::from_str(alloc, text)?)?;
    }
    Ok(words)
}

/// The task that these words ask for.
fn asked(alloc: Global, texts: &[&str]) -> Result<Option<AskedTask>, AllocError> {
    let words = words_of(alloc, texts)?;
    let task = task_of(alloc, words.as_slice());
    drop(words);
    task
}

/// These words ask for this task.
fn expect_task(
    rt: &impl Abort,
    alloc: Global,
    line: &[&str],
    task: Option<AskedTask>,
) -> Result<(), AllocError> {
    assert_eq!(rt; asked(alloc, line)?, task, "{line:?}");
    Ok(())
}

/// The least numbers of a made script.
const LEAST: AskedTask = AskedTask::Make { nodes: 3, start: 0 };

/// The greatest ones.
const MOST: AskedTask = AskedTask::Make {
    nodes: 256,
    start: 4_294_967_295,
};

#[test]
fn words_that_ask_for_a_task(rt: HostRuntime) -> Result<(), Fail> {
    let lines: [(&[&str], AskedTask); 5] = [
        (&["run"], AskedTask::Run),
        (&["make", "--nodes", "3", "--start", "0"], LEAST),
        (&["make", "--start=0", "--nodes=3"], LEAST),
        (&["make", "--nodes", "+003", "--start=-0"], LEAST),
        (&["make", "--nodes=256", "--start=4294967295"], MOST),
    ];
    for (line, task) in lines {
        expect_task(&rt, rt.alloc(), line, Some(task))?;
    }
    Ok(())
}

#[test]
fn words_that_ask_for_none(rt: HostRuntime) -> Result<(), Fail> {
    let lines: [&[&str]; 21] = [
        &[],
        &[""],
        &["run", "x"],
        &["run", "--help"],
        &["Run"],
        &["x", "run"],
        &["make"],
        &["make", "--help"],
        &["make", "--nodes", "3"],
        &["make", "--start", "0"],
        &["make", "--nodes", "--start", "0"],
        &["make", "--nodes", "2", "--start", "0"],
        &["make", "--nodes", "257", "--start", "0"],
        &["make", "--nodes=-3", "--start", "0"],
        &["make", "--nodes", "3", "--start=-1"],
        &["make", "--nodes", "3", "--start", "4294967296"],
        &["make", "--nodes", "3", "--nodes", "3", "--start", "0"],
        &["make", "--nodes", "3", "--start", "0", "run"],
        &["make", "--nodes", "3", "--start", "0", "--help"],
        &["make", "--nodes", "three", "--start", "0"],
        &["--nodes", "3", "--start", "0"],
    ];
    for line in lines {
        expect_task(&rt, rt.alloc(), line, None)?;
    }
    Ok(())
}
