//! Certificates of repairs, with the answers that an independent program gives.

pub const CERTIFICATES: &str = "a certificate, accepted and spoilt\n\
    lsp 831b010014010000007d04b0000000000001000000000001000003f2100a00000100020980001f400103003e80871200000000600a000001080306400000000001161c0000000000020000000111040800000001000000011f053000005dc1161c0000000000040000000111040800000004000000041f053000005dc4\n\
    lsp 831b010014010000007d04b0000000000002000000000001000003f2100a00000200020980001f400103003e80871200000000600a000002080306400000000002161c0000000000010000000111040800000001000000011f053000005dc1161c0000000000030000000111040800000002000000021f053000005dc2\n\
    lsp 831b010014010000007d04b0000000000003000000000001000003f2100a00000300020980001f400103003e80871200000000600a000003080306400000000003161c0000000000020000000111040800000002000000021f053000005dc2161c0000000000040000000111040800000003000000031f053000005dc3\n\
    lsp 831b010014010000007d04b0000000000004000000000001000003f2100a00000400020980001f400103003e80871200000000600a000004080306400000000004161c0000000000030000000111040800000003000000031f053000005dc3161c0000000000010000000111040800000004000000041f053000005dc4\n\
    commit\n\
    prove link 0000.0000.0001 0000.0000.0002 1 0000.0000.0002\n\
    proof open link 0000.0000.0001 0000.0000.0002 1 0000.0000.0002\n\
    proof via 0000.0000.0001 0000.0000.0004 1\n\
    proof node 0000.0000.0003\n\
    proof row 0 3 2 1\n\
    proof row 1 2 1 0\n\
    proof row 2 1 0 1\n\
    proof row 2 1 0 1\n\
    proof row 1 0 1 2\n\
    proof done 16003 16002\n\
    proof open link 0000.0000.0001 0000.0000.0002 1 0000.0000.0002\n\
    proof via 0000.0000.0001 0000.0000.0004 1\n\
    proof node 0000.0000.0003\n\
    proof row 0 4 2 1\n\
    proof row 1 2 1 0\n\
    proof row 2 1 0 1\n\
    proof row 2 1 0 1\n\
    proof row 1 0 1 2\n\
    proof done 16003 16002\n\
    proof open link 0000.0000.0001 0000.0000.0002 1 0000.0000.0002\n\
    proof via 0000.0000.0001 0000.0000.0004 1\n\
    proof node 0000.0000.0003\n\
    proof row 0 3 2 1\n\
    proof row 1 2 1 0\n\
    proof row 2 1 0 1\n\
    proof row 2 1 0 1\n\
    proof done 16003 16002\n\
    proof open link 0000.0000.0001 0000.0000.0002 1 0000.0000.0002\n\
    proof via 0000.0000.0001 0000.0000.0004 1\n\
    proof node 0000.0000.0003\n\
    proof row 0 3 2 1\n\
    proof row 1 2 1 0\n\
    proof row 2 1 0 1\n\
    proof row 2 1 0 1\n\
    proof row 1 0 1 2\n\
    proof done 16002 16003\n\
    proof done none\n\
    @ 1\n\
    staged 1\n\
    staged 2\n\
    staged 3\n\
    staged 4\n\
    version 1 nodes 4 links 8\n\
    proof open link 0000.0000.0001 0000.0000.0002 1 0000.0000.0002\n\
    proof via 0000.0000.0001 0000.0000.0004 1\n\
    proof node 0000.0000.0003\n\
    proof row 0 3 2 1\n\
    proof row 1 2 1 0\n\
    proof row 2 1 0 1\n\
    proof row 2 1 0 1\n\
    proof row 1 0 1 2\n\
    proof done 16003 16002\n\
    proof 1\n\
    proof 2\n\
    proof 3\n\
    proof 4\n\
    proof 5\n\
    proof 6\n\
    proof 7\n\
    proof 8\n\
    accepted cost 3\n\
    proof 1\n\
    proof 2\n\
    proof 3\n\
    proof 4\n\
    proof 5\n\
    proof 6\n\
    proof 7\n\
    proof 8\n\
    rejected 3\n\
    proof 1\n\
    proof 2\n\
    proof 3\n\
    proof 4\n\
    proof 5\n\
    proof 6\n\
    proof 7\n\
    rejected 1\n\
    proof 1\n\
    proof 2\n\
    proof 3\n\
    proof 4\n\
    proof 5\n\
    proof 6\n\
    proof 7\n\
    proof 8\n\
    rejected 7\n\
    refused 42 30 NoProof\n\
    @\n\
    a repair without a certificate\n\
    lsp 831b010014010000005f04b0000000000001000000000001000003f2100a00000100020980001f400103003e80871200000000600a000001080306400000000001161c0000000000020000000a11040800000001000000011f053000005dc1\n\
    lsp 831b010014010000005f04b0000000000002000000000001000003f2100a00000200020980001f400103003e80871200000000600a000002080306400000000002161c0000000000010000000a11040800000001000000011f053000005dc1\n\
    commit\n\
    prove link 0000.0000.0001 0000.0000.0002 1 0000.0000.0002\n\
    @ 0\n\
    staged 1\n\
    staged 2\n\
    version 1 nodes 2 links 2\n\
    prove uncovered nopath\n\
    @\n\
    each clause that fails alone\n\
    lsp 831b010014010000007d04b0000000000001000000000001000003f2100a00000100020980001f400103003e80871200000000600a000001080306400000000001161c0000000000020000000111040800000001000000011f053000005dc1161c0000000000040000000111040800000004000000041f053000005dc4\n\
    lsp 831b010014010000007d04b0000000000002000000000001000003f2100a00000200020980001f400103003e80871200000000600a000002080306400000000002161c0000000000010000000111040800000001000000011f053000005dc1161c0000000000030000000111040800000002000000021f053000005dc2\n\
    lsp 831b010014010000007d04b0000000000003000000000001000003f2100a00000300020980001f400103003e80871200000000600a000003080306400000000003161c0000000000020000000111040800000002000000021f053000005dc2161c0000000000040000000111040800000003000000031f053000005dc3\n\
    lsp 831b010014010000007d04b0000000000004000000000001000003f2100a00000400020980001f400103003e80871200000000600a000004080306400000000004161c0000000000030000000111040800000003000000031f053000005dc3161c0000000000010000000111040800000004000000041f053000005dc4\n\
    commit\n\
    proof open link 0000.0000.0001 0000.0000.0002 1 0000.0000.0002\n\
    proof via 0000.0000.0001 0000.0000.0004 1\n\
    proof node 0000.0000.0003\n\
    proof row 0 3 2\n\
    proof row 1 2 1 0\n\
    proof row 2 1 0 1\n\
    proof row 2 1 0 1\n\
    proof row 1 0 1 2\n\
    proof done 16003 16002\n\
    proof open link 0000.0000.0001 0000.0000.0002 1 0000.0000.0002\n\
    proof via 0000.0000.0001 0000.0000.0002 1\n\
    proof node 0000.0000.0003\n\
    proof row 0 3 2 1\n\
    proof row 1 2 1 0\n\
    proof row 2 1 0 1\n\
    proof row 2 1 0 1\n\
    proof row 1 0 1 2\n\
    proof done 16003 16002\n\
    proof open link 0000.0000.0001 0000.0000.0002 1 0000.0000.0002\n\
    proof via 0000.0000.0001 0000.0000.0004 1\n\
    proof node 0000.0000.0003\n\
    proof row 0 3 2 2\n\
    proof row 1 2 1 0\n\
    proof row 2 1 0 1\n\
    proof row 2 1 0 1\n\
    proof row 1 0 1 2\n\
    proof done 16003 16002\n\
    proof open link 0000.0000.0001 0000.0000.0002 1 0000.0000.0002\n\
    proof via 0000.0000.0001 0000.0000.0004 1\n\
    proof node 0000.0000.0003\n\
    proof row 0 3 2 1\n\
    proof row 1 2 1 0\n\
    proof row 2 1 0 1\n\
    proof row 2 1 0 1\n\
    proof row 1 0 1 3\n\
    proof done 16003 16002\n\
    proof open link 0000.0000.0001 0000.0000.0002 1 0000.0000.0002\n\
    proof via 0000.0000.0001 0000.0000.0004 1\n\
    proof row 0 3 2 1\n\
    proof row 1 2 1 0\n\
    proof row 1 0 1 2\n\
    proof done 16002\n\
    proof open link 0000.0000.0001 0000.0000.0002 1 0000.0000.0004\n\
    proof via 0000.0000.0001 0000.0000.0004 1\n\
    proof node 0000.0000.0003\n\
    proof row 0 3 2 1\n\
    proof row 1 2 1 0\n\
    proof row 2 1 0 1\n\
    proof row 2 1 0 1\n\
    proof row 1 2 1 0\n\
    proof done 16003 16004\n\
    proof open link 0000.0000.0001 0000.0000.0002 1 0000.0000.0002\n\
    proof via 0000.0000.0001 0000.0000.0004 1\n\
    proof node 0000.0000.0003\n\
    proof row 0 3 2 1\n\
    proof row 1 2 1 0\n\
    proof row 2 1 0 1\n\
    proof row 2 1 0 1\n\
    proof row 1 0 1 2\n\
    proof done 16002 16003\n\
    proof open link 0000.0000.0001 0000.0000.0002 1 0000.0000.0002\n\
    proof via 0000.0000.0001 0000.0000.0004 1\n\
    proof node 0000.0000.0003\n\
    proof row 0 3 2 1\n\
    proof row 1 2 1 0\n\
    proof row 2 1 0 1\n\
    proof row 2 1 0 1\n\
    proof row 1 0 1 2\n\
    proof done none\n\
    proof open link 0000.0000.0001 0000.0000.0002 1 0000.0000.0002\n\
    proof via 0000.0000.0001 0000.0000.0004 1\n\
    proof node 0000.0000.0003\n\
    proof row 0 3 2 1\n\
    proof row 1 2 1 0\n\
    proof row 2 1 0 1\n\
    proof row 2 1 0 1\n\
    proof row 1 0 1 2\n\
    proof done 16003 16002\n\
    @ 0\n\
    staged 1\n\
    staged 2\n\
    staged 3\n\
    staged 4\n\
    version 1 nodes 4 links 8\n\
    proof 1\n\
    proof 2\n\
    proof 3\n\
    proof 4\n\
    proof 5\n\
    proof 6\n\
    proof 7\n\
    proof 8\n\
    rejected 1\n\
    proof 1\n\
    proof 2\n\
    proof 3\n\
    proof 4\n\
    proof 5\n\
    proof 6\n\
    proof 7\n\
    proof 8\n\
    rejected 2\n\
    proof 1\n\
    proof 2\n\
    proof 3\n\
    proof 4\n\
    proof 5\n\
    proof 6\n\
    proof 7\n\
    proof 8\n\
    rejected 3\n\
    proof 1\n\
    proof 2\n\
    proof 3\n\
    proof 4\n\
    proof 5\n\
    proof 6\n\
    proof 7\n\
    proof 8\n\
    rejected 4\n\
    proof 1\n\
    proof 2\n\
    proof 3\n\
    proof 4\n\
    proof 5\n\
    rejected 5\n\
    proof 1\n\
    proof 2\n\
    proof 3\n\
    proof 4\n\
    proof 5\n\
    proof 6\n\
    proof 7\n\
    proof 8\n\
    rejected 6\n\
    proof 1\n\
    proof 2\n\
    proof 3\n\
    proof 4\n\
    proof 5\n\
    proof 6\n\
    proof 7\n\
    proof 8\n\
    rejected 7\n\
    proof 1\n\
    proof 2\n\
    proof 3\n\
    proof 4\n\
    proof 5\n\
    proof 6\n\
    proof 7\n\
    proof 8\n\
    rejected 7\n\
    proof 1\n\
    proof 2\n\
    proof 3\n\
    proof 4\n\
    proof 5\n\
    proof 6\n\
    proof 7\n\
    proof 8\n\
    accepted cost 3\n\
    @\n\
    lines in another order, and between others\n\
    lsp 831b010014010000007d04b0000000000001000000000001000003f2100a00000100020980001f400103003e80871200000000600a000001080306400000000001161c0000000000020000000111040800000001000000011f053000005dc1161c0000000000040000000111040800000004000000041f053000005dc4\n\
    lsp 831b010014010000007d04b0000000000002000000000001000003f2100a00000200020980001f400103003e80871200000000600a000002080306400000000002161c0000000000010000000111040800000001000000011f053000005dc1161c0000000000030000000111040800000002000000021f053000005dc2\n\
    lsp 831b010014010000007d04b0000000000003000000000001000003f2100a00000300020980001f400103003e80871200000000600a000003080306400000000003161c0000000000020000000111040800000002000000021f053000005dc2161c0000000000040000000111040800000003000000031f053000005dc3\n\
    lsp 831b010014010000007d04b0000000000004000000000001000003f2100a00000400020980001f400103003e80871200000000600a000004080306400000000004161c0000000000030000000111040800000003000000031f053000005dc3161c0000000000010000000111040800000004000000041f053000005dc4\n\
    commit\n\
    proof open link 0000.0000.0001 0000.0000.0002 1 0000.0000.0002\n\
    proof node 0000.0000.0003\n\
    proof row 0 3 2 1\n\
    proof row 1 2 1 0\n\
    proof row 2 1 0 1\n\
    proof row 2 1 0 1\n\
    proof row 1 0 1 2\n\
    proof done 16003 16002\n\
    proof open link 0000.0000.0001 0000.0000.0002 1 0000.0000.0002\n\
    proof node 0000.0000.0003\n\
    proof via 0000.0000.0001 0000.0000.0004 1\n\
    proof row 0 3 2 1\n\
    proof row 1 2 1 0\n\
    proof row 2 1 0 1\n\
    proof row 2 1 0 1\n\
    proof row 1 0 1 2\n\
    proof done 16003 16002\n\
    proof open link 0000.0000.0001 0000.0000.0002 1 0000.0000.0002\n\
    proof via 0000.0000.0001 0000.0000.0004 1\n\
    proof via 0000.0000.0001 0000.0000.0004 1\n\
    proof node 0000.0000.0003\n\
    proof row 0 3 2 1\n\
    proof row 1 2 1 0\n\
    proof row 2 1 0 1\n\
    proof row 2 1 0 1\n\
    proof row 1 0 1 2\n\
    proof done 16003 16002\n\
    proof open link 0000.0000.0001 0000.0000.0002 1 0000.0000.0002\n\
    proof via 0000.0000.0001 0000.0000.0004 1\n\
    proof row 0 3 2 1\n\
    proof node 0000.0000.0003\n\
    proof row 1 2 1 0\n\
    proof row 2 1 0 1\n\
    proof row 2 1 0 1\n\
    proof row 1 0 1 2\n\
    proof done 16003 16002\n\
    proof open link 0000.0000.0001 0000.0000.0002 1 0000.0000.0002\n\
    proof done 16003 16002\n\
    proof open link 0000.0000.0001 0000.0000.0002 1 0000.0000.0002\n\
    proof via 0000.0000.0001 0000.0000.0004 1\n\
    proof node 0000.0000.0003\n\
    dist 0000.0000.0001 0000.0000.0003\n\
    show\n\
    cost 0000.0000.0001 0000.0000.0002 1 5\n\
    drop\n\
    audit\n\
    proof row 0 3 2 1\n\
    proof row 1 2 1 0\n\
    prove node 0000.0000.0001 0000.0000.0002 1 0000.0000.0003\n\
    proof row 2 1 0 1\n\
    proof row 2 1 0 1\n\
    proof row 1 0 1 2\n\
    proof done 16003 16002\n\
    proof open link 0000.0000.0001 0000.0000.0002 1 0000.0000.0002\n\
    proof via 0000.0000.0001 0000.0000.0004 1\n\
    proof node 0000.0000.0003\n\
    proof row 0 3 2 1\n\
    proof row 1 2 1 0\n\
    commit\n\
    proof row 2 1 0 1\n\
    proof row 2 1 0 1\n\
    proof row 1 0 1 2\n\
    proof done 16003 16002\n\
    proof open link 0000.0000.0001 0000.0000.0002 1 0000.0000.0002\n\
    proof via 0000.0000.0001 0000.0000.0004 1\n\
    proof node 0000.0000.0003\n\
    proof row 0 3 2 1\n\
    proof row 1 2 1 0\n\
    proof row 2 1 0 1\n\
    proof row 2 1 0 1\n\
    proof row 1 0 1 2\n\
    proof done 16003 16002\n\
    @ 1\n\
    staged 1\n\
    staged 2\n\
    staged 3\n\
    staged 4\n\
    version 1 nodes 4 links 8\n\
    proof 1\n\
    proof 2\n\
    proof 3\n\
    proof 4\n\
    proof 5\n\
    proof 6\n\
    proof 7\n\
    rejected 1\n\
    proof 1\n\
    proof 2\n\
    proof 3\n\
    proof 4\n\
    proof 5\n\
    proof 6\n\
    proof 7\n\
    proof 8\n\
    rejected 1\n\
    proof 1\n\
    proof 2\n\
    proof 3\n\
    proof 4\n\
    proof 5\n\
    proof 6\n\
    proof 7\n\
    proof 8\n\
    proof 9\n\
    rejected 1\n\
    proof 1\n\
    proof 2\n\
    proof 3\n\
    proof 4\n\
    proof 5\n\
    proof 6\n\
    proof 7\n\
    proof 8\n\
    rejected 1\n\
    proof 1\n\
    rejected 1\n\
    proof 1\n\
    proof 2\n\
    proof 3\n\
    dist 2\n\
    show version 1 nodes 4 links 8 depth 3 staged 0\n\
    staged 1\n\
    dropped 1\n\
    audit version 1 covered 40 nopath 0 nolist 0 toodeep 0\n\
    proof 4\n\
    proof 5\n\
    proof open node 0000.0000.0001 0000.0000.0002 1 0000.0000.0003\n\
    proof via 0000.0000.0001 0000.0000.0004 1\n\
    proof row 0 - 2 1\n\
    proof row 1 2 1 0\n\
    proof row 2 1 0 1\n\
    proof done 16003\n\
    proof 6\n\
    proof 7\n\
    proof 8\n\
    accepted cost 3\n\
    proof 1\n\
    proof 2\n\
    proof 3\n\
    proof 4\n\
    proof 5\n\
    version 2 nodes 4 links 8\n\
    refused 65 30 NoProof\n\
    refused 66 30 NoProof\n\
    refused 67 30 NoProof\n\
    refused 68 30 NoProof\n\
    proof 1\n\
    proof 2\n\
    proof 3\n\
    proof 4\n\
    proof 5\n\
    proof 6\n\
    proof 7\n\
    proof 8\n\
    accepted cost 3\n\
    @\n\
    what certificates name first, and their forms\n\
    prove link 0000.0000.0001 0000.0000.0002 1 0000.0000.0002\n\
    proof open link 0000.0000.0001 0000.0000.0002 1 0000.0000.0002\n\
    proof via 0000.0000.0001 0000.0000.0004 1\n\
    proof node 0000.0000.0003\n\
    proof adj 0000.0000.0001 0000.0000.0004 1\n\
    proof row 0 1\n\
    proof done 16\n\
    proof done\n\
    proof done none none\n\
    proof done 16003 none\n\
    proof none\n\
    proof row\n\
    proof row 8589934591 -\n\
    proof row 8589934592\n\
    proof row --\n\
    proof row -1\n\
    proof node\n\
    proof via 0000.0000.0001\n\
    proof open link 0000.0000.0001 0000.0000.0002 1\n\
    proof done 1048575\n\
    proof done 1048576\n\
    proof\n\
    prove\n\
    lsp 831b010014010000007d04b0000000000001000000000001000003f2100a00000100020980001f400103003e80871200000000600a000001080306400000000001161c0000000000020000000111040800000001000000011f053000005dc1161c0000000000040000000111040800000004000000041f053000005dc4\n\
    lsp 831b010014010000007d04b0000000000002000000000001000003f2100a00000200020980001f400103003e80871200000000600a000002080306400000000002161c0000000000010000000111040800000001000000011f053000005dc1161c0000000000030000000111040800000002000000021f053000005dc2\n\
    lsp 831b010014010000007d04b0000000000003000000000001000003f2100a00000300020980001f400103003e80871200000000600a000003080306400000000003161c0000000000020000000111040800000002000000021f053000005dc2161c0000000000040000000111040800000003000000031f053000005dc3\n\
    lsp 831b010014010000007d04b0000000000004000000000001000003f2100a00000400020980001f400103003e80871200000000600a000004080306400000000004161c0000000000030000000111040800000003000000031f053000005dc3161c0000000000010000000111040800000004000000041f053000005dc4\n\
    commit\n\
    proof via 0000.0000.0001 0000.0000.0004 1\n\
    proof node 0000.0000.0003\n\
    proof adj 0000.0000.0001 0000.0000.0004 1\n\
    proof row 0 1\n\
    proof done 16\n\
    proof open node 0000.0000.0009 0000.0000.0002 1 0000.0000.0002\n\
    proof open link 0000.0000.0001 0000.0000.0002 1 0000.0000.0008\n\
    proof open link 0000.0000.0001 0000.0000.0002 2 0000.0000.0002\n\
    proof open link 0000.0000.0001 0000.0000.0003 1 0000.0000.0002\n\
    proof open risk 0000.0000.0001 0000.0000.0002 1 0000.0000.0001\n\
    proof via 0000.0000.0001 0000.0000.0003 1\n\
    proof via 0000.0000.0007 0000.0000.0003 1\n\
    proof node 0000.0000.0006\n\
    proof adj 0000.0000.0001 0000.0000.0002 2\n\
    proof row -\n\
    proof row 8589934591\n\
    proof done none\n\
    prove link 0000.0000.0001 0000.0000.0002 1 0000.0000.0001\n\
    prove link 0000.0000.0001 0000.0000.0002 1 0000.0000.0004\n\
    prove node 0000.0000.0001 0000.0000.0002 1 0000.0000.0003\n\
    @ 1\n\
    refused 1 25 NoVersion\n\
    refused 2 25 NoVersion\n\
    refused 3 25 NoVersion\n\
    refused 4 25 NoVersion\n\
    refused 5 25 NoVersion\n\
    refused 6 25 NoVersion\n\
    refused 7 25 NoVersion\n\
    refused 8 2 BadForm\n\
    refused 9 2 BadForm\n\
    refused 10 2 BadForm\n\
    refused 11 2 BadForm\n\
    refused 12 2 BadForm\n\
    refused 13 25 NoVersion\n\
    refused 14 2 BadForm\n\
    refused 15 2 BadForm\n\
    refused 16 2 BadForm\n\
    refused 17 2 BadForm\n\
    refused 18 2 BadForm\n\
    refused 19 2 BadForm\n\
    refused 20 25 NoVersion\n\
    refused 21 2 BadForm\n\
    refused 22 2 BadForm\n\
    refused 23 2 BadForm\n\
    staged 1\n\
    staged 2\n\
    staged 3\n\
    staged 4\n\
    version 1 nodes 4 links 8\n\
    refused 29 30 NoProof\n\
    refused 30 30 NoProof\n\
    refused 31 30 NoProof\n\
    refused 32 30 NoProof\n\
    refused 33 30 NoProof\n\
    refused 34 21 NoNode 0000.0000.0009\n\
    refused 35 21 NoNode 0000.0000.0008\n\
    refused 36 22 NoLink 0000.0000.0001 0000.0000.0002 2\n\
    refused 37 22 NoLink 0000.0000.0001 0000.0000.0003 1\n\
    proof 1\n\
    refused 39 22 NoLink 0000.0000.0001 0000.0000.0003 1\n\
    refused 40 21 NoNode 0000.0000.0007\n\
    refused 41 21 NoNode 0000.0000.0006\n\
    refused 42 22 NoLink 0000.0000.0001 0000.0000.0002 2\n\
    proof 2\n\
    proof 3\n\
    rejected 1\n\
    refused 46 24 NotAffected 0000.0000.0001\n\
    refused 47 24 NotAffected 0000.0000.0004\n\
    proof open node 0000.0000.0001 0000.0000.0002 1 0000.0000.0003\n\
    proof via 0000.0000.0001 0000.0000.0004 1\n\
    proof row 0 - 2 1\n\
    proof row 1 2 1 0\n\
    proof row 2 1 0 1\n\
    proof done 16003\n\
    @\n\
    certificates of a costly ring, given back\n\
    lsp 831b010014010000007d04b0000000000001000000000001000003f2100a00000100020980001f400103003e80871200000000600a000001080306400000000001161c0000000000020000000111040800000001000000011f053000005dc1161c0000000000050000000111040800000005000000051f053000005dc5\n\
    lsp 831b010014010000007d04b0000000000002000000000001000003f2100a00000200020980001f400103003e80871200000000600a000002080306400000000002161c0000000000010000000111040800000001000000011f053000005dc1161c0000000000030000000111040800000002000000021f053000005dc2\n\
    lsp 831b010014010000007d04b0000000000003000000000001000003f2100a00000300020980001f400103003e80871200000000600a000003080306400000000003161c0000000000020000000111040800000002000000021f053000005dc2161c0000000000040000006411040800000003000000031f053000005dc3\n\
    lsp 831b010014010000007d04b0000000000004000000000001000003f2100a00000400020980001f400103003e80871200000000600a000004080306400000000004161c0000000000030000006411040800000003000000031f053000005dc3161c0000000000050000000111040800000004000000041f053000005dc4\n\
    lsp 831b010014010000007d04b0000000000005000000000001000003f2100a00000500020980001f400103003e80871200000000600a000005080306400000000005161c0000000000040000000111040800000004000000041f053000005dc4161c0000000000010000000111040800000005000000051f053000005dc5\n\
    commit\n\
    prove link 0000.0000.0001 0000.0000.0002 1 0000.0000.0002\n\
    prove link 0000.0000.0001 0000.0000.0002 1 0000.0000.0003\n\
    prove node 0000.0000.0001 0000.0000.0002 1 0000.0000.0003\n\
    prove link 0000.0000.0001 0000.0000.0002 1 0000.0000.0002\n\
    proof open link 0000.0000.0001 0000.0000.0002 1 0000.0000.0002\n\
    proof via 0000.0000.0001 0000.0000.0005 1\n\
    proof node 0000.0000.0004\n\
    proof adj 0000.0000.0004 0000.0000.0003 1\n\
    proof row 0 103 102 2 1\n\
    proof row 1 2 3 1 0\n\
    proof row 2 3 4 0 1\n\
    proof row 2 1 0 4 3\n\
    proof row 1 0 1 3 2\n\
    proof done 16004 24003 16002\n\
    proof open link 0000.0000.0001 0000.0000.0002 1 0000.0000.0003\n\
    proof via 0000.0000.0001 0000.0000.0005 1\n\
    proof node 0000.0000.0004\n\
    proof adj 0000.0000.0004 0000.0000.0003 1\n\
    proof row 0 103 102 2 1\n\
    proof row 1 2 3 1 0\n\
    proof row 2 3 4 0 1\n\
    proof row 2 1 0 4 3\n\
    proof row 2 1 0 4 3\n\
    proof done 16004 24003 16003\n\
    proof open node 0000.0000.0001 0000.0000.0002 1 0000.0000.0003\n\
    proof via 0000.0000.0001 0000.0000.0005 1\n\
    proof node 0000.0000.0004\n\
    proof adj 0000.0000.0004 0000.0000.0003 1\n\
    proof row 0 - 102 2 1\n\
    proof row 1 2 3 1 0\n\
    proof row 2 3 4 0 1\n\
    proof row 2 1 0 4 3\n\
    proof row 2 1 0 4 3\n\
    proof done 16004 24003 16003\n\
    proof open link 0000.0000.0001 0000.0000.0002 1 0000.0000.0002\n\
    proof via 0000.0000.0001 0000.0000.0005 1\n\
    proof node 0000.0000.0004\n\
    proof adj 0000.0000.0004 0000.0000.0003 1\n\
    proof row 0 103 102 2 1\n\
    proof row 1 2 3 1 0\n\
    proof row 2 3 4 0 1\n\
    proof row 2 1 0 4 3\n\
    proof row 1 0 1 3 2\n\
    proof done 16004 24003 16002\n\
    @ 0\n\
    staged 1\n\
    staged 2\n\
    staged 3\n\
    staged 4\n\
    staged 5\n\
    version 1 nodes 5 links 10\n\
    proof open link 0000.0000.0001 0000.0000.0002 1 0000.0000.0002\n\
    proof via 0000.0000.0001 0000.0000.0005 1\n\
    proof node 0000.0000.0004\n\
    proof adj 0000.0000.0004 0000.0000.0003 1\n\
    proof row 0 103 102 2 1\n\
    proof row 1 2 3 1 0\n\
    proof row 2 3 4 0 1\n\
    proof row 2 1 0 4 3\n\
    proof row 1 0 1 3 2\n\
    proof done 16004 24003 16002\n\
    proof open link 0000.0000.0001 0000.0000.0002 1 0000.0000.0003\n\
    proof via 0000.0000.0001 0000.0000.0005 1\n\
    proof node 0000.0000.0004\n\
    proof adj 0000.0000.0004 0000.0000.0003 1\n\
    proof row 0 103 102 2 1\n\
    proof row 1 2 3 1 0\n\
    proof row 2 3 4 0 1\n\
    proof row 2 1 0 4 3\n\
    proof row 2 1 0 4 3\n\
    proof done 16004 24003 16003\n\
    proof open node 0000.0000.0001 0000.0000.0002 1 0000.0000.0003\n\
    proof via 0000.0000.0001 0000.0000.0005 1\n\
    proof node 0000.0000.0004\n\
    proof adj 0000.0000.0004 0000.0000.0003 1\n\
    proof row 0 - 102 2 1\n\
    proof row 1 2 3 1 0\n\
    proof row 2 3 4 0 1\n\
    proof row 2 1 0 4 3\n\
    proof row 2 1 0 4 3\n\
    proof done 16004 24003 16003\n\
    proof open link 0000.0000.0001 0000.0000.0002 1 0000.0000.0002\n\
    proof via 0000.0000.0001 0000.0000.0005 1\n\
    proof node 0000.0000.0004\n\
    proof adj 0000.0000.0004 0000.0000.0003 1\n\
    proof row 0 103 102 2 1\n\
    proof row 1 2 3 1 0\n\
    proof row 2 3 4 0 1\n\
    proof row 2 1 0 4 3\n\
    proof row 1 0 1 3 2\n\
    proof done 16004 24003 16002\n\
    proof 1\n\
    proof 2\n\
    proof 3\n\
    proof 4\n\
    proof 5\n\
    proof 6\n\
    proof 7\n\
    proof 8\n\
    proof 9\n\
    accepted cost 103\n\
    proof 1\n\
    proof 2\n\
    proof 3\n\
    proof 4\n\
    proof 5\n\
    proof 6\n\
    proof 7\n\
    proof 8\n\
    proof 9\n\
    accepted cost 102\n\
    proof 1\n\
    proof 2\n\
    proof 3\n\
    proof 4\n\
    proof 5\n\
    proof 6\n\
    proof 7\n\
    proof 8\n\
    proof 9\n\
    accepted cost 102\n\
    proof 1\n\
    proof 2\n\
    proof 3\n\
    proof 4\n\
    proof 5\n\
    proof 6\n\
    proof 7\n\
    proof 8\n\
    proof 9\n\
    accepted cost 103\n\
    @\n";
