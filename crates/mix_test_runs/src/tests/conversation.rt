//! The first conversation: one controller, which makes a scene. Its texts are those of a case of
//! `mix_cases`.
use crate::tests::running::{Given, expect, replay_of};
use std::test::Fail;

pub static COLLECTION: &[u8] = br#"mixer-collection 1
canvas [2,1]
rate [30,1]
record ["rgba",1]
scene ["A"]
program ["A"]
"#;

pub static SCRIPT: &[u8] = br#"+
<c1 {"op":1,"d":{"rpcVersion":1,"eventSubscriptions":0}}
<c1 {"op":6,"d":{"requestType":"GetSceneList","requestId":"1"}}
<c1 {"op":6,"d":{"requestType":"CreateScene","requestId":"2","requestData":{"sceneName":"B"}}}
<c1 {"op":6,"d":{"requestType":"CreateScene","requestId":"3","requestData":{"sceneName":"B"}}}
"#;

pub static ANSWERS: &[u8] = br#">c1 {"d":{"obsWebSocketVersion":"5.0.0","rpcVersion":1},"op":0}
>c1 {"d":{"negotiatedRpcVersion":1},"op":2}
>c1 {"d":{"requestId":"1","requestStatus":{"code":100,"result":true},"requestType":"GetSceneList","responseData":{"currentPreviewSceneName":null,"currentPreviewSceneUuid":null,"currentProgramSceneName":"A","currentProgramSceneUuid":"00000000-0000-8000-8000-000000000001","scenes":[{"sceneIndex":0,"sceneName":"A","sceneUuid":"00000000-0000-8000-8000-000000000001"}]}},"op":7}
>c1 {"d":{"requestId":"2","requestStatus":{"code":100,"result":true},"requestType":"CreateScene","responseData":{"sceneUuid":"00000000-0000-8000-8000-000000000002"}},"op":7}
>c1 {"d":{"requestId":"3","requestStatus":{"code":601,"comment":"ResourceAlreadyExists","result":false},"requestType":"CreateScene"},"op":7}
"#;

pub fn first() -> Given<'static> {
    replay_of(COLLECTION, SCRIPT)
}

/// The same as the case. `tools/refused_memory.py` runs it with each allocation refused.
#[test]
fn first_conversation(rt: HostRuntime) -> Result<(), Fail> {
    expect(rt.alloc(), first(), ANSWERS, 0, "the conversation")
}

#[test]
fn pieces_change_nothing(rt: HostRuntime) -> Result<(), Fail> {
    for piece in 1usize..10 {
        let given = Given { piece, ..first() };
        expect(rt.alloc(), given, ANSWERS, 0, "in pieces")?;
    }
    Ok(())
}
