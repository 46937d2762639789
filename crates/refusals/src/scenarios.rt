//! The scenarios of the runs.

use anyhow::Result;
use std::alloc::Global;
use stm_texts::{Scenario, read_scenario};

/// Two programs read both keys and each writes one, at a level that compares nothing. The last step has no runner.
pub(crate) const WRITE_SKEW: &str = r#"[
    ["txn",[],[["put","x","1",0]],[]],
    ["txn",[],[["put","y","1",0]],[]],
    ["start","ReadCommitted",3,[["if",["less",1,["add",["num_of",["get","x"]],["num_of",["get","y"]]]],[["put","x","0",0]],[]]]],
    ["start","ReadCommitted",3,[["if",["less",1,["add",["num_of",["get","x"]],["num_of",["get","y"]]]],[["put","y","0",0]],[]]]],
    ["step",1],["step",2],["step",1],["step",2],["step",1],["step",2],["step",2]
]"#;

/// The same at a level that compares what was read: the second commit fails, and its program does nothing at its second attempt. The last step has no
/// runner.
pub(crate) const WRITE_SKEW_STOPPED: &str = r#"[
    ["txn",[],[["put","x","1",0]],[]],
    ["txn",[],[["put","y","1",0]],[]],
    ["start","Serializable",3,[["if",["less",1,["add",["num_of",["get","x"]],["num_of",["get","y"]]]],[["put","x","0",0]],[]]]],
    ["start","Serializable",3,[["if",["less",1,["add",["num_of",["get","x"]],["num_of",["get","y"]]]],[["put","y","0",0]],[]]]],
    ["step",1],["step",2],["step",1],["step",2],["step",1],["step",2],["step",2],["step",2]
]"#;

/// A program has a list of two keys and reads a third. One of the list is put before its commit, so the second attempt takes the list from what the
/// failed commit read again.
pub(crate) const LISTED_READS: &str = r#"[
    ["txn",[],[["put","p","1",0]],[]],
    ["start","Serializable",2,[["prefetch",["p","q"]],["emit",["get","p"]],["emit",["get","r"]]]],
    ["step",1],
    ["txn",[],[["put","q","1",0]],[]],
    ["step",1],["step",1],["step",1]
]"#;

/// A key moves from a lease to another, each of which expires, and a range is watched between.
pub(crate) const EXPIRING_LEASES: &str = r#"[
    ["grant",1,5],
    ["grant",2,10],
    ["txn",[],[["put","b","1",2],["put","a","1",1]],[]],
    ["txn",[],[["put","a","1",2]],[]],
    ["advance",5],
    ["watch_range","a","c",0],
    ["advance",10],
    ["poll",1,10]
]"#;

/// A watcher of a range is notified of the three puts of one revision.
pub(crate) const ONE_REVISION: &str = r#"[
    ["watch_range","a","d",0],
    ["txn",[],[["put","c","1",0],["put","a","1",0],["put","b","1",0]],[]],
    ["poll",1,1],
    ["poll",1,1]
]"#;

/// Two leases are due at once, each with a key.
pub(crate) const BOTH_EXPIRE: &str = r#"[
    ["grant",1,5],
    ["grant",2,5],
    ["txn",[],[["put","a","1",1],["put","b","1",2]],[]],
    ["advance",5]
]"#;

/// Two leases are due at once, and only the first has a revision left.
pub(crate) const LAST_REVISION: &str = r#"[
    ["begin",9223372036854775804],
    ["grant",1,5],
    ["grant",2,5],
    ["txn",[],[["put","a","1",1],["put","b","1",2]],[]],
    ["advance",5]
]"#;

/// Transactions with compares, and operations in both branches, one after another.
pub(crate) const TRANSACTIONS: &str = r#"[
    ["txn",[["mod","a","=",0]],[["put","a","1",0],["get","a",0],["del","z"]],[["get","a",0]]],
    ["txn",[["mod","a","=",0]],[["put","a","1",0],["get","a",0],["del","z"]],[["get","a",0]]],
    ["txn",[["value","zz","!=","q"]],[],[]],
    ["txn",[],[["put","a","1",0],["del","a"]],[]],
    ["txn",[],[["del","a"],["del","a"]],[]],
    ["txn",[],[["del","a"]],[]],
    ["txn",[],[["get","a",4]],[]],
    ["txn",[],[["get","a",2]],[]],
    ["txn",[],[["get","",0],["put","b","1",0],["put","b","2",0]],[]]
]"#;

/// Eight accounts of 100 each, and four transfers of 1 from one to the next.
pub(crate) const TRANSFERS: &str = r#"[
    ["txn",[],[["put","a0","100",0],["put","a1","100",0],["put","a2","100",0],["put","a3","100",0],
        ["put","a4","100",0],["put","a5","100",0],["put","a6","100",0],["put","a7","100",0]],[]],
    ["start","Serializable",64,[["set",0,["num_of",["get","a0"]]],["if",["less",["var",0],1],[["abort","insufficient"]],[]],
        ["put","a0",["text_of",["sub",["var",0],1]],0],["put","a1",["text_of",["add",["num_of",["get","a1"]],1]],0]]],
    ["start","Serializable",64,[["set",0,["num_of",["get","a1"]]],["if",["less",["var",0],1],[["abort","insufficient"]],[]],
        ["put","a1",["text_of",["sub",["var",0],1]],0],["put","a2",["text_of",["add",["num_of",["get","a2"]],1]],0]]],
    ["start","Serializable",64,[["set",0,["num_of",["get","a2"]]],["if",["less",["var",0],1],[["abort","insufficient"]],[]],
        ["put","a2",["text_of",["sub",["var",0],1]],0],["put","a3",["text_of",["add",["num_of",["get","a3"]],1]],0]]],
    ["start","Serializable",64,[["set",0,["num_of",["get","a3"]]],["if",["less",["var",0],1],[["abort","insufficient"]],[]],
        ["put","a3",["text_of",["sub",["var",0],1]],0],["put","a4",["text_of",["add",["num_of",["get","a4"]],1]],0]]]
]"#;

/// The scenario of a text, by a second reading where the first was refused.
pub(crate) fn scenario_of(alloc: Global, text: &str) -> Result<Scenario> {
    match read_scenario(alloc, text.as_bytes()) {
        Ok(scenario) => Ok(scenario),
        Err(_) => {
            let scenario = read_scenario(alloc, text.as_bytes())?;
            Ok(scenario)
        }
    }
}
