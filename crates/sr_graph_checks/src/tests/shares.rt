//! What threads make of no number, of a few and of many, and how often each number is asked.
use sr_threads::{Share, made_of_each};
use std::alloc::{AllocError, Global};
use std::sync::atomic::{AtomicU64, Ordering};
use std::test::Fail;
use std::thread::Threads;

/// One number at once, and as many threads as there are.
const ONE_BY_ONE: Share = Share {
    at_once: 1,
    worth: 1,
};

/// For each number below the count, how often it is asked.
fn times_asked<R: Threads + Sync>(
    rt: &R,
    alloc: Global,
    count: u32,
    share: Share,
) -> Result<Vec<u64>, AllocError> {
    let mut asked = Vec::new(alloc);
    for _number in 0..count {
        asked.push(AtomicU64::new(0))?;
    }
    let tally = |number: u32| -> Result<u32, AllocError> {
        if let Some(times) = asked.get(number as usize) {
            times.fetch_add(1, Ordering::SeqCst);
        }
        Ok(number)
    };
    made_of_each(rt, alloc, count, share, &tally)?;
    let mut all = Vec::new(alloc);
    for times in &asked {
        all.push(times.load(Ordering::SeqCst))?;
    }
    Ok(all)
}

#[test]
fn the_results_are_in_order(rt: HostRuntime) -> Result<(), Fail> {
    let thrice = |number: u32| -> Result<u64, AllocError> { Ok(number as u64 * 3) };
    for count in [0u32, 1, 7, 300] {
        let made = made_of_each(&rt, rt.alloc(), count, ONE_BY_ONE, &thrice)?;
        assert_eq!(rt; made.len(), count as usize);
        for (number, one) in made.iter().enumerate() {
            assert_eq!(rt; *one / 3, number as u64, "of {count}");
        }
    }
    Ok(())
}

#[test]
fn each_number_is_asked_once(rt: HostRuntime) -> Result<(), Fail> {
    let some = Share {
        at_once: 4,
        worth: 16,
    };
    for count in [0u32, 1, 7, 300] {
        for share in [ONE_BY_ONE, some] {
            let times = times_asked(&rt, rt.alloc(), count, share)?;
            assert_eq!(rt; times.len(), count as usize);
            assert!(rt; times.iter().all(|once| *once == 1), "of {count}");
        }
    }
    Ok(())
}

#[test]
fn a_refusal_is_answered(rt: HostRuntime) {
    let refuse = |number: u32| -> Result<u32, AllocError> {
        if number == 250 {
            Err(AllocError)
        } else {
            Ok(number)
        }
    };
    assert!(rt; made_of_each(&rt, rt.alloc(), 300, ONE_BY_ONE, &refuse).is_err());
    assert!(rt; made_of_each(&rt, rt.alloc(), 250, ONE_BY_ONE, &refuse).is_ok());
}
