use query_lang::{read_script, write_script};
use std::alloc::Global;
use std::test::Fail;
use test_tables::{answered, push_bytes};

/// Reads the script, and writes it.
fn push_written(alloc: Global, given: &str, text: &mut String) -> Result<(), Fail> {
    let Ok(script) = read_script(alloc, given.as_bytes()) else {
        text.push_str("refused")?;
        return Ok(());
    };
    let bytes = write_script(alloc, &script)?;
    push_bytes(text, bytes.as_slice())
}

/// A script with a statement of each kind, and what is written of it.
const STATEMENTS: &str = r#"LOAD VOCAB "v.txt"; LOAD
POLICY "p.txt"; LOAD IOS "edge.cfg" AS r; -- the edge
LOAD IPTABLES "rules" AS fw; EXPLORE [x : Packet,y:Host] (TRUE) UNDER v,p INCLUDE q(x);
IS POSSIBLE ?; SHOW ONE; SHOW FIRST 007; SHOW ALL; SHOW FULL; SHOW UP TO 3;
SHOW REALIZED; SHOW UNREALIZED; SHOW BOUNDS; SHOW PROOF;
COMPARE r.acl.101 r."acl two".IN."b"; DECIDE r.acl.101(10.0.0.1, 7, "eth0");
GENERATE 20 5 AS g; LINK a "e0" TO b "e1"; PATH a "e0" TO b "e1" WITHIN 4; AUDIT r.acl.101;
CORE r.acl.101:deny WHERE src IN 10.0.0.0 0.0.0.255, port IN 80, port IN 1 TO 5;
 => LOAD VOCAB "v.txt";
LOAD POLICY "p.txt";
LOAD IOS "edge.cfg" AS r;
LOAD IPTABLES "rules" AS fw;
EXPLORE [x:Packet, y:Host] TRUE UNDER v, p INCLUDE q(x);
IS POSSIBLE?;
SHOW ONE;
SHOW FIRST 7;
SHOW ALL;
SHOW FULL;
SHOW UP TO 3;
SHOW REALIZED;
SHOW UNREALIZED;
SHOW BOUNDS;
SHOW PROOF;
COMPARE r.acl.101 r."acl two"."IN".b;
DECIDE r.acl.101(167772161, 7, "eth0");
GENERATE 20 5 AS g;
LINK a "e0" TO b "e1";
PATH a "e0" TO b "e1" WITHIN 4;
AUDIT r.acl.101;
CORE r.acl.101:deny WHERE src IN 167772160 255, port IN 80, port IN 1 TO 5;
~
"#;

#[test]
fn each_statement_is_written(rt: HostRuntime) -> Result<(), Fail> {
    let text = answered(rt.alloc(), STATEMENTS, "~\n", push_written)?;
    assert_eq!(rt; text.as_str(), STATEMENTS);
    Ok(())
}

/// Questions, and where their parentheses stay.
const FORMULAS: &str = r#"EXPLORE ((TRUE)); => EXPLORE TRUE;
~
EXPLORE (a() AND b()) AND c(); => EXPLORE (a() AND b()) AND c();
~
EXPLORE (a() AND b()) OR (c()); => EXPLORE a() AND b() OR c();
~
EXPLORE (a() OR b()) AND c(); => EXPLORE (a() OR b()) AND c();
~
EXPLORE NOT (a() IFF (b() IFF c())); => EXPLORE NOT (a() IFF (b() IFF c()));
~
EXPLORE (a() IMPLIES b()) IMPLIES (c() IMPLIES d());
 => EXPLORE (a() IMPLIES b()) IMPLIES c() IMPLIES d();
~
EXPLORE FORALL x : S ((EXISTS y : S (x = f(y,<req>))));
 => EXPLORE FORALL x:S EXISTS y:S x = f(y, <req>);
~
EXPLORE r."a b".7:permit(<req>) AND src IN 1 TO 1 AND src IN "e0" TO "e1";
 => EXPLORE r."a b".7:permit(<req>) AND src IN 1 AND src IN "e0" TO "e1";
~
"#;

#[test]
fn parentheses_stay_where_they_are_needed(rt: HostRuntime) -> Result<(), Fail> {
    let text = answered(rt.alloc(), FORMULAS, "~\n", push_written)?;
    assert_eq!(rt; text.as_str(), FORMULAS);
    Ok(())
}
