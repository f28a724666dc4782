//! The audit of a version in groups, and all repairs of a failure, with the answers that an independent count of the whole audit
//! of an independent program gives.

pub const GROUPS: &str = "the audit of a ring of four in groups\n\
    lsp 831b010014010000007d04b0000000000001000000000001000003f2100a00000100020980001f400103003e80871200000000600a000001080306400000000001161c0000000000020000000111040800000001000000011f053000005dc1161c0000000000040000000111040800000004000000041f053000005dc4\n\
    lsp 831b010014010000007d04b0000000000002000000000001000003f2100a00000200020980001f400103003e80871200000000600a000002080306400000000002161c0000000000010000000111040800000001000000011f053000005dc1161c0000000000030000000111040800000002000000021f053000005dc2\n\
    lsp 831b010014010000007d04b0000000000003000000000001000003f2100a00000300020980001f400103003e80871200000000600a000003080306400000000003161c0000000000020000000111040800000002000000021f053000005dc2161c0000000000040000000111040800000003000000031f053000005dc3\n\
    lsp 831b010014010000007d04b0000000000004000000000001000003f2100a00000400020980001f400103003e80871200000000600a000004080306400000000004161c0000000000030000000111040800000003000000031f053000005dc3161c0000000000010000000111040800000004000000041f053000005dc4\n\
    commit\n\
    audit by kind\n\
    audit by node\n\
    audit by link\n\
    audit by destination\n\
    audit labels\n\
    repair link 0000.0000.0001 0000.0000.0002 1\n\
    repair node 0000.0000.0002 0000.0000.0003 1\n\
    repair risk 0000.0000.0004 0000.0000.0005 1\n\
    fails node 0000.0000.0003\n\
    fails node 0000.0000.0001\n\
    fails node 0000.0000.0009\n\
    repair link 0000.0000.0001 0000.0000.0003 1\n\
    audit by\n\
    audit by mood\n\
    fails link 0000.0000.0001\n\
    audit labels 1\n\
    @ 1\n\
    staged 1\n\
    staged 2\n\
    staged 3\n\
    staged 4\n\
    version 1 nodes 4 links 8\n\
    coverage kind link 10000 covered 16 nopath 0 nolist 0 toodeep 0\n\
    coverage kind node 10000 covered 8 nopath 0 nolist 0 toodeep 0\n\
    coverage kind risk 10000 covered 16 nopath 0 nolist 0 toodeep 0\n\
    audit version 1 covered 40 nopath 0 nolist 0 toodeep 0\n\
    coverage node 0000.0000.0001 10000 covered 10 nopath 0 nolist 0 toodeep 0\n\
    coverage node 0000.0000.0002 10000 covered 10 nopath 0 nolist 0 toodeep 0\n\
    coverage node 0000.0000.0003 10000 covered 10 nopath 0 nolist 0 toodeep 0\n\
    coverage node 0000.0000.0004 10000 covered 10 nopath 0 nolist 0 toodeep 0\n\
    audit version 1 covered 40 nopath 0 nolist 0 toodeep 0\n\
    coverage link 0000.0000.0001>0000.0000.0002#1 10000 covered 5 nopath 0 nolist 0 toodeep 0\n\
    coverage link 0000.0000.0001>0000.0000.0004#1 10000 covered 5 nopath 0 nolist 0 toodeep 0\n\
    coverage link 0000.0000.0002>0000.0000.0001#1 10000 covered 5 nopath 0 nolist 0 toodeep 0\n\
    coverage link 0000.0000.0002>0000.0000.0003#1 10000 covered 5 nopath 0 nolist 0 toodeep 0\n\
    coverage link 0000.0000.0003>0000.0000.0002#1 10000 covered 5 nopath 0 nolist 0 toodeep 0\n\
    coverage link 0000.0000.0003>0000.0000.0004#1 10000 covered 5 nopath 0 nolist 0 toodeep 0\n\
    coverage link 0000.0000.0004>0000.0000.0001#1 10000 covered 5 nopath 0 nolist 0 toodeep 0\n\
    coverage link 0000.0000.0004>0000.0000.0003#1 10000 covered 5 nopath 0 nolist 0 toodeep 0\n\
    audit version 1 covered 40 nopath 0 nolist 0 toodeep 0\n\
    coverage destination 0000.0000.0001 10000 covered 10 nopath 0 nolist 0 toodeep 0\n\
    coverage destination 0000.0000.0002 10000 covered 10 nopath 0 nolist 0 toodeep 0\n\
    coverage destination 0000.0000.0003 10000 covered 10 nopath 0 nolist 0 toodeep 0\n\
    coverage destination 0000.0000.0004 10000 covered 10 nopath 0 nolist 0 toodeep 0\n\
    audit version 1 covered 40 nopath 0 nolist 0 toodeep 0\n\
    labels link 1 repairs 8\n\
    labels link 2 repairs 8\n\
    labels node 1 repairs 8\n\
    labels risk 1 repairs 8\n\
    labels risk 2 repairs 8\n\
    audit version 1 covered 40 nopath 0 nolist 0 toodeep 0\n\
    repair link 0000.0000.0001>0000.0000.0002#1 to 0000.0000.0002 via 0000.0000.0001>0000.0000.0004#1 segments node:0000.0000.0003 labels 16003 16002 cost 3\n\
    repair link 0000.0000.0001>0000.0000.0002#1 to 0000.0000.0003 via 0000.0000.0001>0000.0000.0004#1 segments none labels 16003 cost 2\n\
    repairs covered 2 nopath 0 nolist 0 toodeep 0\n\
    repair node 0000.0000.0002>0000.0000.0003#1 to 0000.0000.0004 via 0000.0000.0002>0000.0000.0001#1 segments none labels 16004 cost 2\n\
    repairs covered 1 nopath 0 nolist 0 toodeep 0\n\
    refused 13 21 NoNode 0000.0000.0005\n\
    repair node 0000.0000.0002>0000.0000.0003#1 to 0000.0000.0004 via 0000.0000.0002>0000.0000.0001#1 segments none labels 16004 cost 2\n\
    repair node 0000.0000.0004>0000.0000.0003#1 to 0000.0000.0002 via 0000.0000.0004>0000.0000.0001#1 segments none labels 16002 cost 2\n\
    repairs covered 2 nopath 0 nolist 0 toodeep 0\n\
    repair node 0000.0000.0002>0000.0000.0001#1 to 0000.0000.0004 via 0000.0000.0002>0000.0000.0003#1 segments none labels 16004 cost 2\n\
    repair node 0000.0000.0004>0000.0000.0001#1 to 0000.0000.0002 via 0000.0000.0004>0000.0000.0003#1 segments none labels 16002 cost 2\n\
    repairs covered 2 nopath 0 nolist 0 toodeep 0\n\
    refused 16 21 NoNode 0000.0000.0009\n\
    refused 17 22 NoLink 0000.0000.0001 0000.0000.0003 1\n\
    refused 18 2 BadForm\n\
    refused 19 2 BadForm\n\
    refused 20 2 BadForm\n\
    refused 21 2 BadForm\n\
    @\n\
    groups that are covered in part\n\
    lsp 831b010014010000005f04b0000000000001000000000001000003f2100a00000100020980001f400103003e80871200000000600a000001080306400000000001161c0000000000020000000111040800000001000000011f053000005dc1\n\
    lsp 831b010014010000009b04b0000000000002000000000001000003f2100a00000200020980001f400103003e80871200000000600a000002080306400000000002161c0000000000010000000111040800000001000000011f053000005dc1161c0000000000030000000111040800000002000000021f053000005dc2161c0000000000040000000911040800000006000000061f053000005dc6\n\
    lsp 831b010014010000009b04b0000000000003000000000001000003f2100a00000300020980001f400103003e80871200000000600a000003080306400000000003161c0000000000020000000111040800000002000000021f053000005dc2161c0000000000040000000111040800000003000000031f053000005dc3161c0000000000050000000311040800000005000000051f053000005dc5\n\
    lsp 831b010014010000009b04b0000000000004000000000001000003f2100a00000400020980001f400103003e80871200000000600a000004080306400000000004161c0000000000030000000111040800000003000000031f053000005dc3161c0000000000050000000111040800000004000000041f053000005dc4161c0000000000020000000911040800000006000000061f053000005dc6\n\
    lsp 831b010014010000007d04b0000000000005000000000001000003f2100a00000500020980001f400103003e80871200000000600a000005080306400000000005161c0000000000040000000111040800000004000000041f053000005dc4161c0000000000030000000311040800000005000000051f053000005dc5\n\
    commit\n\
    audit by kind\n\
    audit by node\n\
    audit by link\n\
    audit by destination\n\
    audit labels\n\
    repair link 0000.0000.0001 0000.0000.0002 1\n\
    repair node 0000.0000.0002 0000.0000.0003 1\n\
    repair risk 0000.0000.0004 0000.0000.0005 1\n\
    fails node 0000.0000.0003\n\
    fails node 0000.0000.0001\n\
    @ 0\n\
    staged 1\n\
    staged 2\n\
    staged 3\n\
    staged 4\n\
    staged 5\n\
    version 1 nodes 5 links 12\n\
    coverage kind node 6666 covered 8 nopath 4 nolist 0 toodeep 0\n\
    coverage kind link 7500 covered 15 nopath 5 nolist 0 toodeep 0\n\
    coverage kind risk 7500 covered 15 nopath 5 nolist 0 toodeep 0\n\
    audit version 1 covered 38 nopath 14 nolist 0 toodeep 0\n\
    coverage node 0000.0000.0001 0 covered 0 nopath 11 nolist 0 toodeep 0\n\
    coverage node 0000.0000.0002 8000 covered 8 nopath 2 nolist 0 toodeep 0\n\
    coverage node 0000.0000.0003 9000 covered 9 nopath 1 nolist 0 toodeep 0\n\
    coverage node 0000.0000.0004 10000 covered 10 nopath 0 nolist 0 toodeep 0\n\
    coverage node 0000.0000.0005 10000 covered 11 nopath 0 nolist 0 toodeep 0\n\
    audit version 1 covered 38 nopath 14 nolist 0 toodeep 0\n\
    coverage link 0000.0000.0001>0000.0000.0002#1 0 covered 0 nopath 11 nolist 0 toodeep 0\n\
    coverage link 0000.0000.0002>0000.0000.0001#1 0 covered 0 nopath 2 nolist 0 toodeep 0\n\
    coverage link 0000.0000.0003>0000.0000.0002#1 8000 covered 4 nopath 1 nolist 0 toodeep 0\n\
    coverage link 0000.0000.0002>0000.0000.0003#1 10000 covered 8 nopath 0 nolist 0 toodeep 0\n\
    coverage link 0000.0000.0002>0000.0000.0004#1 10000 covered 0 nopath 0 nolist 0 toodeep 0\n\
    coverage link 0000.0000.0003>0000.0000.0004#1 10000 covered 5 nopath 0 nolist 0 toodeep 0\n\
    coverage link 0000.0000.0003>0000.0000.0005#1 10000 covered 0 nopath 0 nolist 0 toodeep 0\n\
    coverage link 0000.0000.0004>0000.0000.0002#1 10000 covered 0 nopath 0 nolist 0 toodeep 0\n\
    coverage link 0000.0000.0004>0000.0000.0003#1 10000 covered 8 nopath 0 nolist 0 toodeep 0\n\
    coverage link 0000.0000.0004>0000.0000.0005#1 10000 covered 2 nopath 0 nolist 0 toodeep 0\n\
    coverage link 0000.0000.0005>0000.0000.0003#1 10000 covered 0 nopath 0 nolist 0 toodeep 0\n\
    coverage link 0000.0000.0005>0000.0000.0004#1 10000 covered 11 nopath 0 nolist 0 toodeep 0\n\
    audit version 1 covered 38 nopath 14 nolist 0 toodeep 0\n\
    coverage destination 0000.0000.0003 7000 covered 7 nopath 3 nolist 0 toodeep 0\n\
    coverage destination 0000.0000.0004 7000 covered 7 nopath 3 nolist 0 toodeep 0\n\
    coverage destination 0000.0000.0001 7272 covered 8 nopath 3 nolist 0 toodeep 0\n\
    coverage destination 0000.0000.0005 7272 covered 8 nopath 3 nolist 0 toodeep 0\n\
    coverage destination 0000.0000.0002 8000 covered 8 nopath 2 nolist 0 toodeep 0\n\
    audit version 1 covered 38 nopath 14 nolist 0 toodeep 0\n\
    labels link 0 repairs 3\n\
    labels link 1 repairs 6\n\
    labels link 2 repairs 6\n\
    labels node 0 repairs 4\n\
    labels node 1 repairs 4\n\
    labels risk 0 repairs 3\n\
    labels risk 1 repairs 6\n\
    labels risk 2 repairs 6\n\
    audit version 1 covered 38 nopath 14 nolist 0 toodeep 0\n\
    repair link 0000.0000.0001>0000.0000.0002#1 to 0000.0000.0002 uncovered nopath\n\
    repair link 0000.0000.0001>0000.0000.0002#1 to 0000.0000.0003 uncovered nopath\n\
    repair link 0000.0000.0001>0000.0000.0002#1 to 0000.0000.0004 uncovered nopath\n\
    repair link 0000.0000.0001>0000.0000.0002#1 to 0000.0000.0005 uncovered nopath\n\
    repairs covered 0 nopath 4 nolist 0 toodeep 0\n\
    repair node 0000.0000.0002>0000.0000.0003#1 to 0000.0000.0004 via 0000.0000.0002>0000.0000.0004#1 segments none labels none cost 9\n\
    repair node 0000.0000.0002>0000.0000.0003#1 to 0000.0000.0005 via 0000.0000.0002>0000.0000.0004#1 segments none labels 16005 cost 10\n\
    repairs covered 2 nopath 0 nolist 0 toodeep 0\n\
    repair risk 0000.0000.0004>0000.0000.0005#1 to 0000.0000.0005 via 0000.0000.0004>0000.0000.0003#1 segments adj:0000.0000.0003>0000.0000.0005#1 labels 24005 16005 cost 4\n\
    repairs covered 1 nopath 0 nolist 0 toodeep 0\n\
    repair node 0000.0000.0002>0000.0000.0003#1 to 0000.0000.0004 via 0000.0000.0002>0000.0000.0004#1 segments none labels none cost 9\n\
    repair node 0000.0000.0002>0000.0000.0003#1 to 0000.0000.0005 via 0000.0000.0002>0000.0000.0004#1 segments none labels 16005 cost 10\n\
    repair node 0000.0000.0004>0000.0000.0003#1 to 0000.0000.0001 via 0000.0000.0004>0000.0000.0002#1 segments none labels 16001 cost 10\n\
    repair node 0000.0000.0004>0000.0000.0003#1 to 0000.0000.0002 via 0000.0000.0004>0000.0000.0002#1 segments none labels none cost 9\n\
    repairs covered 4 nopath 0 nolist 0 toodeep 0\n\
    repairs covered 0 nopath 0 nolist 0 toodeep 0\n\
    @\n\
    groups before a version\n\
    audit by kind\n\
    audit labels\n\
    repair link 0000.0000.0001 0000.0000.0002 1\n\
    fails node 0000.0000.0001\n\
    commit\n\
    audit by kind\n\
    audit by node\n\
    audit labels\n\
    @ 1\n\
    refused 1 25 NoVersion\n\
    refused 2 25 NoVersion\n\
    refused 3 25 NoVersion\n\
    refused 4 25 NoVersion\n\
    version 1 nodes 0 links 0\n\
    coverage kind link 10000 covered 0 nopath 0 nolist 0 toodeep 0\n\
    coverage kind node 10000 covered 0 nopath 0 nolist 0 toodeep 0\n\
    coverage kind risk 10000 covered 0 nopath 0 nolist 0 toodeep 0\n\
    audit version 1 covered 0 nopath 0 nolist 0 toodeep 0\n\
    audit version 1 covered 0 nopath 0 nolist 0 toodeep 0\n\
    audit version 1 covered 0 nopath 0 nolist 0 toodeep 0\n\
    @\n";
