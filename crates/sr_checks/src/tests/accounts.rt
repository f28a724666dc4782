//! What of a domain is used and what is set aside: `nodes`, `links` and `aside`, with the answers that were worked out by hand
//! for each reason, and that an independent counter gives.

pub const ACCOUNTS: &str = "a LAN, parallel links, and a thing for each reason\n\
    nodes\n\
    links\n\
    aside\n\
    lsp 831b010014010000016d04b0000000000001000000000001000003f2140a00000100020980001f400103003e80170201088902723116400000000000020000000a350408000000010000000c1f053000005dc11f060000000000051f05b000005dc21f057000005dc31f053000005dc51f053000005dc1161c00000000000200000014110408000000020000000b1f057400005dc6160b0000000000020100000a00160b0000000000010000000a00160b0000000000090000000a0016150000000000030000000a0a0408000000050000000616150000000000020000000a0a04080000000700000008161c00000000000200ffffff110408000000030000000d1f053000005dc7873100000000600a00000127030640010000000103054c00003e81030600000000000103064000000000050306600000000001871100000000580a0001080306400000000001871200000000600a000001080306400000000001870900000000200a000009\n\
    lsp 831b01001401000000af04b00000000000010001000000010000038a140000000000020000000000010000000c000000078a140000000000020100000000010000000c000000078a100000000000020000000000010000000c8a1400000000000200000000006300000063000000078a140000000000020000000000070000000800000007f2050a00000100f2140a000001000209800000640103004e2017020106f20b0a00000100170401040203\n\
    lsp 831b01001401000000b704b0000000000002000000000001000007f2160a00000200020980001f400103003e80170402090106161c0000000000010000000a1104080000000c000000011f053000005dc11615000000000001000000140a04080000000b0000000216150000000000010000000a0a04080000000d0000000316150000000000010000000a0a04080000000900000007160b0000000000030000000500871200000000600a000002080306400000000002\n\
    lsp 831b010014010000003504b0000000000002010000000001000003160b0000000000010000000000160b0000000000020000000000\n\
    lsp 831b010014010000004104b0000000000003000000000001000003f2100a00000300020980001f400103003e80161200000000000200000005071f057000005dca\n\
    lsp 831b010014010000003c04b0000000000004000100000001000003160b0000000000010000000a00871200000000600a000004080306400000000004\n\
    commit\n\
    nodes\n\
    links\n\
    aside\n\
    down 0000.0000.0001 0000.0000.0002 2\n\
    cost 0000.0000.0001 0000.0000.0002 1 7\n\
    commit\n\
    links\n\
    aside\n\
    nodes all\n\
    aside 1\n\
    @ 1\n\
    refused 1 25 NoVersion\n\
    refused 2 25 NoVersion\n\
    refused 3 25 NoVersion\n\
    staged 1\n\
    staged 2\n\
    staged 3\n\
    staged 4\n\
    staged 5\n\
    staged 6\n\
    version 1 nodes 3 links 7\n\
    node 0000.0000.0001 index 1 flags P srgb 16000-23999 msd 8 links 2\n\
    node 0000.0000.0002 index 2 flags O srgb 16000-23999 msd 6 links 4\n\
    node 0000.0000.0003 index none flags none srgb 16000-23999 msd none links 1\n\
    nodes 3\n\
    link 0000.0000.0001>0000.0000.0002#1 back 0000.0000.0002>0000.0000.0001#2 metric 10 announced 10 label 24001 flags VL ident ids 1 12 groups 7\n\
    link 0000.0000.0001>0000.0000.0002#2 back 0000.0000.0002>0000.0000.0001#1 metric 20 announced 20 label 24006 flags BVLP ident ids 2 11 groups none\n\
    link 0000.0000.0002>0000.0000.0001#1 back 0000.0000.0001>0000.0000.0002#2 metric 20 announced 20 label none flags none ident ids 11 2 groups none\n\
    link 0000.0000.0002>0000.0000.0001#2 back 0000.0000.0001>0000.0000.0002#1 metric 10 announced 10 label 24001 flags VL ident ids 12 1 groups 7\n\
    link 0000.0000.0002>0000.0000.0001#3 back none metric 10 announced 10 label none flags none ident ids 13 3 groups none\n\
    link 0000.0000.0002>0000.0000.0003#1 back 0000.0000.0003>0000.0000.0002#1 metric 5 announced 5 label none flags none ident none groups none\n\
    link 0000.0000.0003>0000.0000.0002#1 back 0000.0000.0002>0000.0000.0003#1 metric 5 announced 5 label 24010 flags BVL ident none groups none\n\
    links 7\n\
    aside 0000.0000.0001.00-00 part 2 name hostname\n\
    aside 0000.0000.0001.00-00 part 3 sid 2 adjsid index 5 form\n\
    aside 0000.0000.0001.00-00 part 3 sid 3 adjsid label 24002 flags\n\
    aside 0000.0000.0001.00-00 part 3 sid 4 adjsid label 24003 backup\n\
    aside 0000.0000.0001.00-00 part 3 sid 5 adjsid label 24005 notleast\n\
    aside 0000.0000.0001.00-00 part 3 sid 6 adjsid label 24001 notfirst\n\
    aside 0000.0000.0001.00-00 part 5 reach 0000.0000.0002.01 pseudonode\n\
    aside 0000.0000.0001.00-00 part 6 reach 0000.0000.0001.00 self\n\
    aside 0000.0000.0001.00-00 part 7 reach 0000.0000.0009.00 neighbour\n\
    aside 0000.0000.0001.00-00 part 8 reach 0000.0000.0003.00 oneway\n\
    aside 0000.0000.0001.00-00 part 9 reach 0000.0000.0002.00 identity\n\
    aside 0000.0000.0001.00-00 part 10 reach 0000.0000.0002.00 maxmetric\n\
    aside 0000.0000.0001.00-00 part 10 sid 1 adjsid label 24007 maxmetric\n\
    aside 0000.0000.0001.00-00 part 11 sid 1 prefixsid index 1 algorithm\n\
    aside 0000.0000.0001.00-00 part 11 sid 2 prefixsid label 16001 form\n\
    aside 0000.0000.0001.00-00 part 11 sid 3 prefixsid index 1 flags\n\
    aside 0000.0000.0001.00-00 part 11 sid 4 prefixsid index 5 notleast\n\
    aside 0000.0000.0001.00-00 part 12 prefix 10.0.1.0/24 length\n\
    aside 0000.0000.0001.00-00 part 12 sid 1 prefixsid index 1 length\n\
    aside 0000.0000.0001.00-00 part 13 prefix 10.0.0.1/32 noneused\n\
    aside 0000.0000.0001.00-00 part 13 sid 1 prefixsid index 1 notfirst\n\
    aside 0000.0000.0001.00-00 part 14 prefix 10.0.0.9/32 nosid\n\
    aside 0000.0000.0001.00-01 part 2 risk 0000.0000.0002.01 pseudonode\n\
    aside 0000.0000.0001.00-01 part 3 risk 0000.0000.0002.00 nogroups\n\
    aside 0000.0000.0001.00-01 part 4 risk 0000.0000.0002.00 nolink\n\
    aside 0000.0000.0001.00-01 part 5 risk 0000.0000.0002.00 unused\n\
    aside 0000.0000.0001.00-01 part 6 capability 10.0.0.1 silent\n\
    aside 0000.0000.0001.00-01 part 7 capability 10.0.0.1 notfirst\n\
    aside 0000.0000.0001.00-01 part 8 capability 10.0.0.1 notfirst\n\
    aside 0000.0000.0002.00-00 part 5 reach 0000.0000.0001.00 identity\n\
    aside 0000.0000.0002.01-00 part 1 reach 0000.0000.0001.00 lan\n\
    aside 0000.0000.0002.01-00 part 2 reach 0000.0000.0002.00 lan\n\
    aside 0000.0000.0004.00-01 part 1 reach 0000.0000.0001.00 absent\n\
    aside 0000.0000.0004.00-01 part 2 prefix 10.0.0.4/32 absent\n\
    aside 0000.0000.0004.00-01 part 2 sid 1 prefixsid index 4 absent\n\
    asides 35\n\
    staged 1\n\
    staged 2\n\
    version 2 nodes 3 links 5\n\
    link 0000.0000.0001>0000.0000.0002#1 back 0000.0000.0002>0000.0000.0001#2 metric 7 announced 10 label 24001 flags VL ident ids 1 12 groups 7\n\
    link 0000.0000.0002>0000.0000.0001#2 back 0000.0000.0001>0000.0000.0002#1 metric 10 announced 10 label 24001 flags VL ident ids 12 1 groups 7\n\
    link 0000.0000.0002>0000.0000.0001#3 back none metric 10 announced 10 label none flags none ident ids 13 3 groups none\n\
    link 0000.0000.0002>0000.0000.0003#1 back 0000.0000.0003>0000.0000.0002#1 metric 5 announced 5 label none flags none ident none groups none\n\
    link 0000.0000.0003>0000.0000.0002#1 back 0000.0000.0002>0000.0000.0003#1 metric 5 announced 5 label 24010 flags BVL ident none groups none\n\
    links 5\n\
    aside 0000.0000.0001.00-00 part 2 name hostname\n\
    aside 0000.0000.0001.00-00 part 3 sid 2 adjsid index 5 form\n\
    aside 0000.0000.0001.00-00 part 3 sid 3 adjsid label 24002 flags\n\
    aside 0000.0000.0001.00-00 part 3 sid 4 adjsid label 24003 backup\n\
    aside 0000.0000.0001.00-00 part 3 sid 5 adjsid label 24005 notleast\n\
    aside 0000.0000.0001.00-00 part 3 sid 6 adjsid label 24001 notfirst\n\
    aside 0000.0000.0001.00-00 part 4 reach 0000.0000.0002.00 down\n\
    aside 0000.0000.0001.00-00 part 4 sid 1 adjsid label 24006 down\n\
    aside 0000.0000.0001.00-00 part 5 reach 0000.0000.0002.01 pseudonode\n\
    aside 0000.0000.0001.00-00 part 6 reach 0000.0000.0001.00 self\n\
    aside 0000.0000.0001.00-00 part 7 reach 0000.0000.0009.00 neighbour\n\
    aside 0000.0000.0001.00-00 part 8 reach 0000.0000.0003.00 oneway\n\
    aside 0000.0000.0001.00-00 part 9 reach 0000.0000.0002.00 identity\n\
    aside 0000.0000.0001.00-00 part 10 reach 0000.0000.0002.00 maxmetric\n\
    aside 0000.0000.0001.00-00 part 10 sid 1 adjsid label 24007 maxmetric\n\
    aside 0000.0000.0001.00-00 part 11 sid 1 prefixsid index 1 algorithm\n\
    aside 0000.0000.0001.00-00 part 11 sid 2 prefixsid label 16001 form\n\
    aside 0000.0000.0001.00-00 part 11 sid 3 prefixsid index 1 flags\n\
    aside 0000.0000.0001.00-00 part 11 sid 4 prefixsid index 5 notleast\n\
    aside 0000.0000.0001.00-00 part 12 prefix 10.0.1.0/24 length\n\
    aside 0000.0000.0001.00-00 part 12 sid 1 prefixsid index 1 length\n\
    aside 0000.0000.0001.00-00 part 13 prefix 10.0.0.1/32 noneused\n\
    aside 0000.0000.0001.00-00 part 13 sid 1 prefixsid index 1 notfirst\n\
    aside 0000.0000.0001.00-00 part 14 prefix 10.0.0.9/32 nosid\n\
    aside 0000.0000.0001.00-01 part 2 risk 0000.0000.0002.01 pseudonode\n\
    aside 0000.0000.0001.00-01 part 3 risk 0000.0000.0002.00 nogroups\n\
    aside 0000.0000.0001.00-01 part 4 risk 0000.0000.0002.00 nolink\n\
    aside 0000.0000.0001.00-01 part 5 risk 0000.0000.0002.00 unused\n\
    aside 0000.0000.0001.00-01 part 6 capability 10.0.0.1 silent\n\
    aside 0000.0000.0001.00-01 part 7 capability 10.0.0.1 notfirst\n\
    aside 0000.0000.0001.00-01 part 8 capability 10.0.0.1 notfirst\n\
    aside 0000.0000.0002.00-00 part 3 reach 0000.0000.0001.00 down\n\
    aside 0000.0000.0002.00-00 part 5 reach 0000.0000.0001.00 identity\n\
    aside 0000.0000.0002.01-00 part 1 reach 0000.0000.0001.00 lan\n\
    aside 0000.0000.0002.01-00 part 2 reach 0000.0000.0002.00 lan\n\
    aside 0000.0000.0004.00-01 part 1 reach 0000.0000.0001.00 absent\n\
    aside 0000.0000.0004.00-01 part 2 prefix 10.0.0.4/32 absent\n\
    aside 0000.0000.0004.00-01 part 2 sid 1 prefixsid index 4 absent\n\
    asides 38\n\
    refused 19 2 BadForm\n\
    refused 20 2 BadForm\n\
    @\n\
    the account of no facts\n\
    commit\n\
    nodes\n\
    links\n\
    aside\n\
    @ 0\n\
    version 1 nodes 0 links 0\n\
    nodes 0\n\
    links 0\n\
    asides 0\n\
    @\n";
